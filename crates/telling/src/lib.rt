// The report of the held building, told in its answer.

#![tactic(auto)]

ghost use Rattle.std.specs.Prelude.{◌+◌, ◌≤◌, length};
ghost use Rattle.lines.specs.Lines.{ended};
ghost use Rattle.answer.specs.held.Wrote.{Wrote};
ghost use Rattle.building.specs.held.Holds.{tables_in, LoadedIn, KeptIn};
ghost use Rattle.service.specs.Service.{report_of};

use building::{Arrays, Scalars};

// The report of the held building, from its kept values.
pub fn put_report(arrays: &Arrays, room: &mut [u8], from: usize, s: Scalars) -> usize
    requires from_in_bounds { from + 33 ≤ length room.old }
    requires loaded { LoadedIn arrays.now s × KeptIn arrays.now s }
    ensures { Wrote (ended (report_of (tables_in arrays.now s))) room.old from room.new result }
{
    let n = s.polygons;
    let faults = totals::faults_of(&arrays.findings, n);
    let volume = totals::six_volume(&arrays.parts, n);
    let v = report::verdict_of(arrays, s, faults, volume);
    let check = verdict::check_number(v);
    let a = elements::element_a(v);
    let b = elements::element_b(v);
    answer::put_report(room, from, check, a, b, faults, volume)
}
