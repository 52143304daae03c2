// The library's calls under plain names, as C and Rust link them from chart_c_c (include/mirtalughe.h).
#![tactic(auto)]

ghost use Rattle.std.specs.Prelude.{◌≡◌, length};
ghost use Rattle.orientation.specs.Turn.{det, turn_of};
ghost use Rattle.fractions.specs.Point.{point_order};
ghost use Rattle.charts.specs.Pair.{meeting_of};
ghost use Rattle.place.specs.Pair.{place_answer_of};
ghost use Rattle.chart_file.specs.Reading.{Reads};
ghost use Rattle.chart_writer.specs.Writing.{Writes};
ghost use Rattle.naive.specs.AllPairs.{all_pairs_of, lent_after};
ghost use Rattle.bentley_ottmann.specs.Swept.{sweep_of};
ghost use Rattle.bentley_ottmann.specs.Swept.{lent_after as swept_after};
ghost use Rattle.full_sweep.specs.Swept.{sweep_of as full_sweep_of, lent_after as full_after};
ghost use Rattle.open_chart.specs.Memory.{five};
ghost use Rattle.open_chart.specs.Changes.{changed_of, adding, dropping, after_adding, after_dropping, emptying_of, after_emptying, used_of};
ghost use Rattle.open_chart.specs.Listing.{open_pairs_of};
ghost use Rattle.open_chart.specs.Listing.{lent_after as open_after};
ghost use Rattle.supplied.specs.Checking.{checked_of};
ghost use Rattle.folded_line.specs.Drawing.{Draws};
ghost use Rattle.plain_order.specs.Plain.{plain_of};
ghost use Rattle.plain_order.specs.Plain.{lent_after as ordered_after};
ghost use Rattle.sweep_batch.specs.Batch.{Batches};
ghost use Rattle.c_records.specs.Sweeps.{swept_fields};
ghost use Rattle.c_records.specs.Checks.{checked_as};
ghost use Rattle.c_records.specs.Numbers.{turn_number, order_number, point_of};
ghost use Rattle.c_records.specs.Meetings.{fields_of};
ghost use Rattle.c_records.specs.Places.{placed_of};
ghost use Rattle.half_line.specs.Call.{half_line_answer_of};
ghost use Rattle.region.specs.Region.{region_answer_of};
ghost use Rattle.c_records.specs.Regions.{located_of, half_met_of};

use c_records::{CheckedFields, HalfMet, Located, Met, Placed, SweptFields};
use charts::Answer;
use fractions::Point;
use open_chart::Changed;
use orientation::Orientation;
use std::cmp::Ordering;

// Which way the three points turn, as its number.
pub fn mirtalughe_orient(x1: i16, y1: i16, x2: i16, y2: i16, x3: i16, y3: i16) -> i8
    ensures { result ≡ turn_number (turn_of (det x1 y1 x2 y2 x3 y3)) }
{
    c_records::turn_number(orientation::orient(x1, y1, x2, y2, x3, y3))
}

// Which of the points x1/d1, y1/d1 and x2/d2, y2/d2 comes first, as its number.
pub fn mirtalughe_compare_points(x1: i64, y1: i64, d1: u64, x2: i64, y2: i64, d2: u64) -> i8
    ensures { result ≡ order_number (point_order (point_of x1 y1 d1) (point_of x2 y2 d2)) }
{
    let p = Point {
        x: x1,
        y: y1,
        d: d1,
    };
    let q = Point {
        x: x2,
        y: y2,
        d: d2,
    };
    match comparison::compare_points(p, q) {
        Ordering::Less => -1,
        Ordering::Equal => 0,
        Ordering::Greater => 1,
    }
}

// Reads a chart file into a lent list.
pub fn mirtalughe_read(file: &[u8], list: &mut [i32]) -> Answer
    ensures { Reads file.now list.old result list.new }
{
    file_reader::read(file, list)
}

// Writes a chart's file into lent bytes.
pub fn mirtalughe_write(list: &[i32], file: &mut [u8]) -> Answer
    ensures { Writes list.now file.old result file.new }
{
    file_writer::write(list, file)
}

// Draws m times x folded at 0 and h, from x = 0 to s, into a lent list.
pub fn mirtalughe_fold(m: u32, h: u32, s: u32, list: &mut [i32]) -> Answer
    ensures { Draws m h s list.old result list.new }
{
    line_drawing::draw(m as usize, h as usize, s as usize, list)
}

// How the two pieces of ten numbers meet, the first one asking.
pub fn mirtalughe_meeting(list: &[i32]) -> Met
    ensures { result ≡ fields_of (meeting_of list.now) }
{
    let answer = chart_verdict::meeting_of(list);
    let meeting = answer.meeting;
    c_records::fields(answer.number, answer.place, meeting)
}

// Where the two pieces of ten numbers meet.
pub fn mirtalughe_place(list: &[i32]) -> Placed
    ensures { result ≡ placed_of (place_answer_of list.now) }
{
    let answer = nearest_place::pair_place(list);
    let meeting = answer.meeting;
    c_records::values(answer.number, answer.place, meeting)
}

// Every pair of a chart's pieces that meet, two bytes a pair.
pub fn mirtalughe_all_pairs(list: &[i32], pairs: &mut [u8]) -> Answer
    ensures { (result ≡ all_pairs_of list.now (length pairs.old)) × (pairs.new ≡ lent_after list.now pairs.old) }
{
    all_pairs::all_pairs(list, pairs)
}

// The pairs that meet of a chart without upright pieces, two bytes a pair, in the order of their first common points.
pub fn mirtalughe_plain_order(list: &[i32], pairs: &mut [u8]) -> Answer
    ensures { (result ≡ plain_of list.now (length pairs.old)) × (pairs.new ≡ ordered_after list.now pairs.old) }
{
    order_pairs::plain_order(list, pairs)
}

// Sweeps a chart's pieces as the Rust does, at most `budget` steps.
pub fn mirtalughe_sweep(list: &[i32], budget: u32, pairs: &mut [u8]) -> SweptFields
    ensures { (result ≡ swept_fields (sweep_of list.now budget (length pairs.old))) × (pairs.new ≡ swept_after list.now budget pairs.old) }
{
    let swept = bentley_ottmann::sweep(list, budget, pairs);
    let last = swept.last;
    c_records::swept_fields(swept, last)
}

// Sweeps a chart's pieces in the new mode, at most `budget` steps: no pair is lost, with upright pieces or without.
pub fn mirtalughe_full_sweep(list: &[i32], budget: u32, pairs: &mut [u8]) -> SweptFields
    ensures { (result ≡ swept_fields (full_sweep_of list.now budget (length pairs.old))) × (pairs.new ≡ full_after list.now budget pairs.old) }
{
    let swept = full_sweep::sweep(list, budget, pairs);
    let last = swept.last;
    c_records::swept_fields(swept, last)
}

// Sweeps each of several charts with the largest budget; their lists stand end to end.
pub fn mirtalughe_sweep_batch(
    list: &[i32],
    lengths: &[usize],
    pairs: &mut [u8],
    results: &mut [u64],
) -> Answer
    ensures { Batches list.now lengths.now pairs.old results.old result pairs.new results.new }
{
    sweep_batch::sweep_batch(list, lengths, pairs, results)
}

// Whether a list of pairs names each meeting pair of a chart once, and if not, where it is wrong.
pub fn mirtalughe_check(list: &[i32], pairs: &[u8]) -> CheckedFields
    ensures { result ≡ checked_as (checked_of list.now pairs.now) }
{
    c_records::checked_fields(supplied_check::check(list, pairs))
}

// Where the peak x, y lies to the region of an outline, two numbers a corner.
pub fn mirtalughe_region(outline: &[i32], x: i32, y: i32) -> Located
    ensures { result ≡ located_of (region_answer_of outline.now x y) }
{
    c_records::located_fields(peak_in_region::locate(outline, x, y))
}

// How the half-line from x, y through tx, ty meets the piece of five numbers.
pub fn mirtalughe_half_line(
    kind: i32,
    x1: i32,
    y1: i32,
    x2: i32,
    y2: i32,
    x: i32,
    y: i32,
    tx: i32,
    ty: i32,
) -> HalfMet
    ensures { result ≡ half_met_of (half_line_answer_of kind x1 y1 x2 y2 x y tx ty) }
{
    let answer = half_line::asked(kind, x1, y1, x2, y2, x, y, tx, ty);
    let meeting = answer.meeting;
    c_records::half_met(answer.number, meeting)
}

// Makes an open chart without pieces.
pub fn mirtalughe_open_empty(chart: &mut [i32]) -> Answer
    ensures { (result ≡ emptying_of chart.old) × (chart.new ≡ after_emptying chart.old) }
{
    open_changes::empty(chart)
}

// Adds a piece at the lowest free place of an open chart.
pub fn mirtalughe_open_add(
    chart: &mut [i32],
    kind: i32,
    x1: i32,
    y1: i32,
    x2: i32,
    y2: i32,
) -> Changed
    ensures { (result ≡ changed_of (adding chart.old (five kind x1 y1 x2 y2))) × (chart.new ≡ after_adding chart.old (five kind x1 y1 x2 y2)) }
{
    open_changes::add(chart, kind, x1, y1, x2, y2)
}

// Drops the piece of a number from an open chart.
pub fn mirtalughe_open_drop(chart: &mut [i32], piece: usize) -> Changed
    ensures { (result ≡ changed_of (dropping chart.old piece)) × (chart.new ≡ after_dropping chart.old piece) }
{
    open_changes::drop(chart, piece)
}

// How many places of an open chart are used.
pub fn mirtalughe_open_used(chart: &[i32]) -> Answer
    ensures { result ≡ used_of chart.now }
{
    open_pairs::used(chart)
}

// Every pair of an open chart's pieces that meet, under the numbers of their places.
pub fn mirtalughe_open_pairs(chart: &[i32], pairs: &mut [u8]) -> Answer
    ensures { (result ≡ open_pairs_of chart.now (length pairs.old)) × (pairs.new ≡ open_after chart.now pairs.old) }
{
    open_pairs::all_pairs(chart, pairs)
}
