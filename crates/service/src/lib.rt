// The service as document 01 describes it: definitions of what every line and every stream is answered, and the demands as theorems about
// them. The code has only the names of the refusals.

#![tactic(auto)]

// Why a frame is refused, a word for each row of the table. `row_number_of` gives document 01's number.
#[derive(Clone, Copy)]
pub enum Refusal {
    Malformed,
    Misplaced,
    Beyond,
    Full,
    Absent,
    Taken,
    Late,
}
