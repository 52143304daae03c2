// The place where the two pieces of a chart meet.
use crate::text;
use place::{Place, PlacePoint};

fn write_point(p: PlacePoint) {
    text::binary64(b" ", p.x);
    text::binary64(b" ", p.y);
}

fn write_place(meeting: Place) {
    match meeting {
        Place::Nothing => {
            text::words(b"nothing");
        }
        Place::At(p) => {
            text::words(b"at");
            write_point(p);
        }
        Place::Along(p, q) => {
            text::words(b"along");
            write_point(p);
            write_point(q);
        }
    }
    text::words(b"\n");
}

pub fn write(list: &[i32]) {
    let answer = nearest_place::pair_place(list);
    if answer.number == 0 {
        let meeting = answer.meeting;
        write_place(meeting);
    } else {
        text::refusal(answer.number, answer.place);
    }
}
