// What a reader says of a body: how its walk comes out; and what a pass over it does.
#![tactic(auto)]

// How a walk over a body comes out: the offset where its data ended, or its first fault.
pub type Verdict = Result<usize, answer::Refusal>;

// A choice of two and no closure: contracts say by it what is written, and the dry loops are compiled by themselves.
// A dry pass over a body writes nothing; a wet one does each write as it meets it, up to the first fault.
#[derive(Clone, Copy)]
pub enum Pass {
    Dry,
    Wet,
}
