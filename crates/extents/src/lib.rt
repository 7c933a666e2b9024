// The ends of the boxes of edges on one axis, and of blocks of eight edges, for check 05 of longer rings.
// Room of 176 numbers holds the ends of edges' boxes from 0 on and of blocks' boxes from 144 on; both are followed by room for eight more.

#![tactic(auto)]

ghost use Rattle.std.specs.Prelude.{◌≡◌, ◌+◌, ◌<◌, ◌≤◌, length};
ghost use Rattle.whole.specs.held.Small.{Small};
ghost use Rattle.extents.specs.held.Extents.{step, ending, Line, Steps, Endings, Ahead, Blocks, Sides};

// The ends of boxes on one axis: the least step of each, and the largest.
#[derive(Drop)]
pub struct Extents {
    pub lows: [u16; 176],
    pub highs: [u16; 176],
}

// Which step of four numbers a coordinate is on: in so little room, eight are held against a box at once.
fn step(z: i64) -> u16
    requires { Small 100000 z }
    ensures { result ≡ step z }
{
    ((z + 100000) as u64 / 4) as u16
}

// The steps of the places of m edges on one axis, into lent room.
fn steps(us: &[i64], m: usize, room: &mut [u16; 176])
    requires line { Line us.now m }
    requires m_bound { m ≤ 128 }
    ensures { Steps us.now m room.new }
{
    for i in 0..m + 1 {
        room[i] = step(us[i]);
    }
}

// The largest of two numbers, or the least.
fn ending<const HIGH: bool>(p: u16, q: u16) -> u16
    ensures { result ≡ ending HIGH p q }
{
    if HIGH { p.max(q) } else { p.min(q) }
}

// The largest number of each of m edges on one axis, or the least, into lent room; by whole eights, each of which is made at once.
fn endings<const HIGH: bool>(ps: &[u16; 176], m: usize, room: &mut [u16; 176])
    requires { m ≤ 128 }
    ensures { Endings ps.now m HIGH room.new }
{
    for i in 0..8 * (m / 8) + 8 {
        room[i] = ending::<HIGH>(ps[i], ps[i + 1]);
    }
}

// A number that none of the eight from j on is above, or below.
fn furthest<const HIGH: bool>(room: &[u16; 176], j: usize) -> u16
    requires { j < 128 }
    ensures { Ahead room.now HIGH j (j + 8) result }
{
    let mut end = room[j];
    for x in &room[j..j + 8] {
        end = ending::<HIGH>(end, *x);
    }
    end
}

// The ends of the blocks' boxes, behind those of m edges.
fn blocks<const HIGH: bool>(m: usize, room: &mut [u16; 176])
    requires { m ≤ 128 }
    ensures { Blocks m HIGH room.old room.new }
{
    for b in 0..m.div_ceil(8) {
        room[144 + b] = furthest::<HIGH>(room, 8 * b);
    }
}

// The ends on one axis: places past the last stand where the last does, and widen no block.
pub fn sides(us: &[i64], m: usize, room: &mut Extents)
    requires line { Line us.now m }
    requires m_bound { m ≤ 128 }
    ensures { Sides us.now m room.new }
{
    let last = step(us[m]);
    let mut ps: [u16; 176] = [last; 176];
    steps(us, m, &mut ps);
    endings::<false>(&ps, m, &mut room.lows);
    endings::<true>(&ps, m, &mut room.highs);
    blocks::<false>(m, &mut room.lows);
    blocks::<true>(m, &mut room.highs);
}
