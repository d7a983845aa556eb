//! What is told of a job that ended.
use kernel_text::{Fault, Outcome, Refusal};

/// Why an expression has no value.
#[derive(Clone, Copy, Debug)]
pub enum ExpFault {
    /// Its text is refused, at a place of its own text, or there was no memory.
    Refused(Refusal),
    /// It met a fault.
    Met(Fault),
}

/// The value of an expression, under its name.
#[derive(Debug, Drop)]
pub struct NamedValue {
    pub name: String,
    pub value: Result<i32, ExpFault>,
}

/// What came of a job.
#[derive(Drop)]
pub struct Done {
    /// The number of the post.
    pub number: u64,
    /// What came of it.
    pub outcome: Outcome,
    /// The execution counter as the job ended.
    pub count: u64,
    /// The position as the job ended.
    pub node: usize,
    /// The value texts of the names that the cell names, if it ran and names one.
    pub shown: Option<String>,
    /// The values of the user expressions.
    pub values: Vec<NamedValue>,
}
