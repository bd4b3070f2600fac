// Cases of a node with two neighbours as rows of one table; examples/cases and examples/cases_told have the same rows as lines of the program node_told.
// Promises: every row holds (specs/Table.antt), and its lines are the row (specs/Written.antt), computed by the checker.
// Leans on the specs of promise_told and request_told.
#![tactic(auto)]

ghost use Rattle.cases.specs.Table.{CasesHold};
ghost use Rattle.cases.specs.Written.{LinesAreRows};

// The theorem that every case of the table comes out as it says.
pub fn cases_stand()
    ensures { CasesHold }
{}

// The theorem that the lines of examples/cases ask for just the steps of the table's rows, and that what is expected there is
// what the definitions come to.
pub fn lines_are_rows()
    ensures { LinesAreRows }
{}
