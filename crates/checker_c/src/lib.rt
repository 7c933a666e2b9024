// The archive that C and C++ programs link: the checker's one entry, exported under its name.

#![tactic(auto)]

ghost use Rattle.service.specs.Stream.{Answers};

// The service entry: the number of answer bytes, or the number of the refusal of the whole stream.
#[unsafe(no_mangle)]
pub extern "C" fn checker_answer(stream: &[u8], room: &mut [u8]) -> i64
    ensures { Answers stream.now room.old result room.new }
{
    checker::checker_answer(stream, room)
}
