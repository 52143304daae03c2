// The block's new pieces written in its place, and what stands behind it moved along; beside each place its lane, the key of
// the crossing ahead of the piece there with the next one.
#![tactic(auto)]

ghost use Rattle.std.specs.Prelude.{◌≡◌, [], ◌∷◌, ◌+◌, ◌-◌, ◌≤◌, ◌<◌, length, get_or, drop, replicate};
ghost use Rattle.std.proofs.Math.Seq.{paste};
ghost use Rattle.full_active.specs.Replaced.{Movable, Replaced};
ghost use Rattle.full_lanes.specs.Lanes.{no_key};

use full_lanes::NONE;

// The places from hi up to `live`, moved so that they begin at `to`.
fn shift(active: &mut [u8], lanes: &mut [u32], live: usize, hi: usize, to: usize)
    requires { Movable active.old lanes.old live hi to }
    ensures { (active.new ≡ paste active.old to (drop hi active.old) (live - hi)) × (lanes.new ≡ paste lanes.old to (drop hi lanes.old) (live - hi)) }
{
    if to != hi {
        active.copy_within(hi..live, to);
        lanes.copy_within(hi..live, to);
    }
}

// The first m new pieces from place lo on, none of them with a lane.
fn write(active: &mut [u8], lanes: &mut [u32], lo: usize, fresh: &[u8], m: usize)
    requires { (lo + m ≤ length active.old) × (length lanes.old ≡ length active.old) × (m ≤ length fresh.now) }
    ensures { (active.new ≡ paste active.old lo fresh.now m) × (lanes.new ≡ paste lanes.old lo (replicate m no_key) m) }
{
    active[lo..lo + m].copy_from_slice(&fresh[..m]);
    lanes[lo..lo + m].fill(NONE);
}

// The first m new pieces in the place of those from lo up to hi; how many are active now.
pub fn replace(
    active: &mut [u8],
    lanes: &mut [u32],
    live: usize,
    lo: usize,
    hi: usize,
    fresh: &[u8],
    m: usize,
) -> usize
    requires { Movable active.old lanes.old live hi (lo + m) × (lo ≤ hi) × (m ≤ length fresh.now) }
    ensures { Replaced active.old lanes.old live lo hi fresh.now m active.new lanes.new result }
{
    let to = lo + m;
    shift(active, lanes, live, hi, to);
    write(active, lanes, lo, fresh, m);
    to + (live - hi)
}

// Piece i, without a lane, between the places in front of lo and those from lo on.
pub fn put_in(active: &mut [u8], lanes: &mut [u32], live: usize, lo: usize, i: u8)
    requires { Movable active.old lanes.old live lo (lo + 1) }
    ensures { Replaced active.old lanes.old live lo lo (i ∷ []) 1 active.new lanes.new (live + 1) }
{
    shift(active, lanes, live, lo, lo + 1);
    active[lo] = i;
    lanes[lo] = NONE;
}

// The piece at place lo, with its lane, out of the list.
pub fn take_out(active: &mut [u8], lanes: &mut [u32], live: usize, lo: usize)
    requires { Movable active.old lanes.old live (lo + 1) lo }
    ensures { Replaced active.old lanes.old live lo (lo + 1) [] 0 active.new lanes.new (live - 1) }
{
    shift(active, lanes, live, lo + 1, lo);
}

// The pieces at places k and k + 1 exchanged, neither with a lane.
pub fn exchange(active: &mut [u8], lanes: &mut [u32], live: usize, k: usize)
    requires { (k + 1 < live) × (live ≤ length active.old) × (length lanes.old ≡ length active.old) }
    ensures { Replaced active.old lanes.old live k (k + 2) (get_or active.old (k + 1) 0 ∷ get_or active.old k 0 ∷ []) 2 active.new lanes.new live }
{
    let i = active[k];
    let j = active[k + 1];
    active[k] = j;
    active[k + 1] = i;
    lanes[k] = NONE;
    lanes[k + 1] = NONE;
}
