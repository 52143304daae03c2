// How the two pieces of a chart meet, and where they cross.
use crate::text;
use chart_pieces::piece_at;
use line_segment::{EndPoint, Meeting};

fn write_end(e: EndPoint) {
    let p = lowest_terms::whole(e.x, e.y);
    text::signed(b" ", p.x);
    text::signed(b" ", p.y);
    text::words(if e.included { b" 1" } else { b" 0" });
}

fn write_crossing(list: &[i32]) {
    let p = segment_crossing::crossing(piece_at(list, 0), piece_at(list, 1));
    text::point(b"crossing ", p);
    text::words(b"\n");
}

fn write_meeting(list: &[i32], meeting: Meeting) {
    match meeting {
        Meeting::Nothing => {
            text::words(b"nothing\n");
        }
        Meeting::Crossing => {
            write_crossing(list);
        }
        Meeting::Overlap(stretch) => {
            text::words(b"overlap");
            write_end(stretch.min);
            write_end(stretch.max);
            text::words(b"\n");
        }
    }
}

pub fn write(list: &[i32]) {
    let answer = chart_verdict::meeting_of(list);
    if answer.number == 0 {
        let meeting = answer.meeting;
        write_meeting(list, meeting);
    } else {
        text::refusal(answer.number, answer.place);
    }
}
