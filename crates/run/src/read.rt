// What was read of a run's layouts and plan.
use layout::columns::ColumnRange;

// Two layouts and a plan: the columns of both, and how many top selectors there are.
#[derive(Clone, Copy)]
pub struct Read {
    pub incoming: ColumnRange,
    pub selectors: u16,
    pub target: ColumnRange,
}
