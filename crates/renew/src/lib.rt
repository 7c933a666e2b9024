// A polygon's finding and part, anew.

#![tactic(auto)]

ghost use Rattle.std.specs.Prelude.{◌≡◌, ◌≤◌};
ghost use Rattle.building.specs.held.Holds.{Beside};
ghost use Rattle.building.specs.held.Rings.{Stands};
ghost use Rattle.renew.specs.held.Renewed.{Refreshed};

use building::Arrays;

// The finding and the part of polygon p, anew.
pub fn refresh(arrays: &mut Arrays, tolerance: u16, p: usize)
    requires stands { Stands arrays.old.rings.entries arrays.old.rings.starts arrays.old.rings.firsts p }
    requires tolerance_bound { tolerance ≤ 1000 }
    ensures refreshed { Refreshed tolerance arrays.old.points.flat arrays.old.rings.entries arrays.old.rings.starts arrays.old.rings.firsts p arrays.old.findings arrays.old.parts arrays.new.findings arrays.new.parts }
    ensures beside { Beside arrays.old arrays.new }
    ensures stamps { arrays.new.stamps ≡ arrays.old.stamps }
{
    let rings = &arrays.rings;
    let from = usize::from(rings.firsts[p]);
    let to = usize::from(rings.firsts[p + 1]);
    let look = inner::look_at(&arrays.points, rings, from, to, tolerance);
    arrays.findings[p] = polygon::kept(look.finding);
    arrays.parts[p] = look.part;
}
