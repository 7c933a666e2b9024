// The one public entry: a stream refused as a whole, or answered line by line.

#![tactic(auto)]

ghost use Rattle.service.specs.Stream.{Answers};

// The service entry: the number of answer bytes, or the number of the refusal of the whole stream. "An empty stream has no lines and
// returns 0": nothing is set up for it.
pub fn checker_answer(stream: &[u8], room: &mut [u8]) -> i64
    ensures { Answers stream.now room.old result room.new }
{
    if stream.len() == 0 {
        return 0;
    }
    if 65535 < stream.len() {
        return -1;
    }
    let n = lines::count_lines(stream);
    if 1024 < n {
        return -2;
    }
    if room.len() < 33 * n {
        return -3;
    }
    let r = replies::all(stream, room);
    r as i64
}
