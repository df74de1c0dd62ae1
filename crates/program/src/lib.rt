// What must be believed of the script program (document 01), and nothing else: the declared types here, the definitions and the claims
// in specs/. There is no function. Proofs of the claims are in proofs/.
#![tactic(auto)]

use model::{Grant, Refusal, Seen, Space};

// What stands at a place of a script (document 01: The script program). A request's 40 bytes are those behind its mark.
#[derive(Clone, Copy)]
pub enum ScriptRecord {
    SetSpace(Space),
    Bind,
    LookUp(u64),
    OtherMark,
    Cut,
    End,
}

// What the script program answers to a record: the capacity of the table that a granted `SP` emptied; a grant; an
// address and what a look-up sees there; a refusal; or that the script ends there.
#[derive(Clone, Copy)]
pub enum Response {
    Emptied(usize),
    Granted(Grant),
    Shows(u64, Seen),
    Refused(Refusal),
    OtherMark,
    Cut,
    End,
}
