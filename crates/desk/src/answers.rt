// What is answered to a line that is refused: the refusal's digits, and nothing held changes.
ghost use Rattle.std.specs.Prelude.{◌≡◌, ◌+◌, ◌≤◌, length};
ghost use Rattle.building.specs.declared.Arrays.{Arrays};
ghost use Rattle.service.specs.Service.{row_number_of, refused};
ghost use Rattle.desk.specs.held.Holds.{service, Valid, Did};

use super::Desk;
use service::Refusal;

// Document 01's number of a refusal.
#[tactic(auto, unfolding(service::specs::Service::row_number_of))]
fn refusal_number(r: Refusal) -> u8
    ensures { result ≡ row_number_of r }
{
    match r {
        Refusal::Malformed => 1,
        Refusal::Misplaced => 2,
        Refusal::Beyond => 3,
        Refusal::Full => 4,
        Refusal::Absent => 5,
        Refusal::Taken => 6,
        Refusal::Late => 7,
    }
}

// Refused: the two digits, and nothing held changes.
pub fn refuse(room: &mut [u8], d: Desk, r: Refusal) -> Desk
    requires { d.at + 33 ≤ length room.old }
    ensures { (a : Arrays) → Valid a d → Did (refused r (service a d)) room.old d.at a room.new result }
{
    let number = refusal_number(r);
    let at = answer::put_plain(room, d.at, number);
    Desk { at, ..d }
}
