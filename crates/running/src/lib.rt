// Running a transformation on the document that numbers begin with: document 01's order of work, its tally and its rows, and how many
// numbers the document took.
//
// Calling a procedure evaluates its right side, and evaluating calls procedures on the children or at the node itself: the calls left fall
// at each call, the node number at each evaluation. What the work reads stands in one plan, so that a step of it is small. The steps take
// the tally by value and give it back; over them, `start_lent` takes it lent, and `start_anew` lends it one.
//
// A place, the rows of parameters, the buffer and the tally go to each step one by one: as one value they would be taken apart and made
// anew at each step that changes one of them, which nearly all do.
//
// Each step asks that the row buffer has at most 4,096 rows. A struct with the lent slice and this fact was tried: that what a step leaves
// in the slice of such a struct is left in the caller's buffer was not proved, since the step might have put another slice into it.
// What each step asks of the plan names the transformation and the document that the plan is of, and a ghost field holds facts alone.
#![tactic(auto)]

ghost use Rattle.std.specs.Prelude.{◌≡◌, ◌+◌, ◌<◌, ◌≤◌, length, take};
ghost use Rattle.foundation.specs.Lists.{zero_filled};
ghost use Rattle.answers.specs.Numbers.{running_answer, running_refusal};
ghost use Rattle.model.specs.Rows.{row_count};
ghost use Rattle.model.specs.Running.{add_row, running};
ghost use Rattle.model.proofs.Laws.Established.{Between};
ghost use Rattle.plans.specs.Plans.{most_procedures, most_numbers};
ghost use Rattle.tables.specs.Handed.{handed};
ghost use Rattle.tables.specs.Tuples.{node_of};
ghost use Rattle.running.specs.Work.{work_of, step_of, ended_of, parameter_row, plan_operands, operand_node, plan_child, numbers_kept, fault_answer, end_answer};
ghost use Rattle.running.specs.Places.{ReadDocument};
ghost use Rattle.running.specs.Promises.{EndsWith, after_admission, Admitted, Closes, EvaluableIn, OperableIn, CallableIn, EvaluatesIn, OperatesIn, AppliesIn, CallsIn, StartsIn};

use admission::admit;
use answers::{Ran, RunningRefusal};
use plans::Plan;
use reading::{fill_ends, read};
use tables::{ContractTables, Node, Procedure, Symbol, tuples_wrong};

// The most rows that a buffer has room for.
const MOST_ROWS: usize = 4096;

// How many rows are used and how many calls are made.
#[derive(Clone, Copy, Debug, PartialEq, Eq)]
pub struct Tally {
    pub used: u16,
    pub calls: u32,
}

// The rows of two parameters, or of a node's two operands; 0 where there are fewer.
#[derive(Clone, Copy, Debug, PartialEq, Eq)]
pub struct RowPair {
    pub first: u16,
    pub second: u16,
}

// Why the work ends without a root row. It is small, since each step of the work keeps room for one on the stack: so it does not tell what
// a refusal of the run does besides.
#[derive(Clone, Copy, Debug, PartialEq, Eq)]
pub enum RunFault {
    // The procedure has no rule where it is called.
    NoRule(Procedure),
    // A row is due and none is free.
    NoRow,
    // A call past the last that may be made: how many may.
    TooManyCalls(u32),
}

// What a step of the work gives: a row, and the tally after it.
type Outcome = Result<(u16, Tally), RunFault>;

// How the work ends, with its root row or a fault, and the tally that is then reached; where it fails, the tally with which it began.
#[derive(Clone, Copy, Debug, PartialEq, Eq)]
pub struct Ended {
    pub tally: Tally,
    pub end: Result<u16, RunFault>,
}

// The place to which a call goes: child 0 is the node itself, 1 the left child, right behind it, and 2 the right one, where the left one
// ends.
fn child_place(plan: &Plan, place: usize, child: u16) -> usize
    requires { (child ≡ 0 → ⊥) → place + 1 < most_numbers }
    ensures { result ≡ plan_child plan.now place child }
{
    match child {
        0 => place,
        1 => place + 1,
        _ => plan.end_of(place + 1),
    }
}

// The row that a parameter stands for.
fn parameter_row(name: u16, given: RowPair) -> u16
    ensures { result ≡ parameter_row name given.first given.second }
{
    if name == 1 { given.first } else { given.second }
}

// How many operands a node has that is no parameter. Tags are numbers here, since nodes are read as they are handed in: an enum made of one
// at each step would be a second copy of it.
fn operand_count(plan: &Plan, node: Node) -> u16
    requires { (node.tag ≡ 1 → ⊥) → node.name < most_procedures }
    ensures { result ≡ plan_operands plan.now (node_of node) }
{
    match (node.tag, node.name) {
        (1, 0) => 0,
        (1, _) => 2,
        _ => plan.count_of(Procedure(node.name)),
    }
}

// The node of operand 1 or 2.
fn operand_node(node: Node, number: u16) -> usize
    ensures { result ≡ operand_node number (node_of node) }
{
    if number == 1 {
        usize::from(node.first)
    } else {
        usize::from(node.second)
    }
}

// Adds a row behind those that are used.
fn add_row(rows: &mut [u16], tally: Tally, symbol: Symbol, left: u16, right: u16) -> Outcome
    requires { length rows.old ≤ 12288 }
    ensures { add_row (row_count rows.old) symbol.0 left right (work_of tally rows.old) ≡ step_of (row_count rows.old) result rows.new }
{
    let used = tally.used;
    let at = 3 * usize::from(used);
    if rows.len() < at + 3 {
        return Err(RunFault::NoRow);
    }
    rows[at] = symbol.0;
    rows[at + 1] = left;
    rows[at + 2] = right;
    let after = Tally {
        used: used + 1,
        ..tally
    };
    Ok((used, after))
}

// Evaluates a node at a place of the document, with the rows of the parameters: its operands, left before right, then what
// it does with their rows.
#[cycle(apply_call_evaluate_operand)]
fn evaluate(
    plan: &Plan,
    node: usize,
    place: usize,
    given: RowPair,
    rows: &mut [u16],
    tally: Tally,
) -> Outcome
    requires evaluable_in { EvaluableIn plan.now place node }
    requires rows_len_bound { length rows.old ≤ 12288 }
    ensures { EvaluatesIn plan.now place node given.first given.second rows.old tally result rows.new }
{
    let here = plan.node(node);
    if here.tag == 0 {
        return Ok((parameter_row(here.name, given), tally));
    }
    let (left, after_left) = operand(plan, node, 1, place, given, rows, tally)?;
    let (right, after_right) = operand(plan, node, 2, place, given, rows, after_left)?;
    let operands = RowPair {
        first: left,
        second: right,
    };
    apply(plan, node, place, operands, rows, after_right)
}

// Evaluates operand 1 or 2 of a node; where it has fewer, row 0 stands for it at once.
#[cycle(apply_call_evaluate_operand)]
fn operand(
    plan: &Plan,
    node: usize,
    number: u16,
    place: usize,
    given: RowPair,
    rows: &mut [u16],
    tally: Tally,
) -> Outcome
    requires operable_in { OperableIn plan.now place node }
    requires between { Between 1 2 number × (length rows.old ≤ 12288) }
    ensures { OperatesIn plan.now place node number given.first given.second rows.old tally result rows.new }
{
    let here = plan.node(node);
    if operand_count(plan, here) < number {
        return Ok((0, tally));
    }
    let smaller = operand_node(here, number);
    evaluate(plan, smaller, place, given, rows, tally)
}

// Ends the evaluation of a node whose operands are evaluated: an output symbol adds its row, a call calls its procedure.
#[cycle(apply_call_evaluate_operand)]
fn apply(
    plan: &Plan,
    node: usize,
    place: usize,
    operands: RowPair,
    rows: &mut [u16],
    tally: Tally,
) -> Outcome
    requires operable_in { OperableIn plan.now place node }
    requires rows_len_bound { length rows.old ≤ 12288 }
    ensures { AppliesIn plan.now place node operands.first operands.second rows.old tally result rows.new }
{
    let here = plan.node(node);
    if here.tag == 1 {
        return add_row(
            rows,
            tally,
            Symbol(here.name),
            operands.first,
            operands.second,
        );
    }
    let child = child_place(plan, place, here.child);
    call(plan, Procedure(here.name), child, operands, rows, tally)
}

// Calls a procedure at a place of the document, with the rows of its parameters. The call is counted before its rule is
// sought: past the last call it is of no account whether there is one.
#[cycle(apply_call_evaluate_operand)]
fn call(
    plan: &Plan,
    procedure: Procedure,
    place: usize,
    given: RowPair,
    rows: &mut [u16],
    tally: Tally,
) -> Outcome
    requires callable_in { CallableIn plan.now place procedure.0 }
    requires rows_len_bound { length rows.old ≤ 12288 }
    ensures { CallsIn plan.now place procedure.0 given.first given.second rows.old tally result rows.new }
{
    let most = plan.most_calls();
    let side = plan.sought_side(procedure, plan.symbol_at(place));
    if most <= tally.calls {
        return Err(RunFault::TooManyCalls(most));
    }
    let Some(side) = side else {
        return Err(RunFault::NoRule(procedure));
    };
    let counted = Tally {
        calls: tally.calls + 1,
        ..tally
    };
    evaluate(plan, side, place, given, rows, counted)
}

// An outcome's end and tally, where the work began with this tally.
fn end_with(before: Tally, outcome: Outcome) -> Ended
    ensures { result ≡ ended_of before outcome }
{
    match outcome {
        Ok((root, after)) => Ended {
            tally: after,
            end: Ok(root),
        },
        Err(fault) => Ended {
            tally: before,
            end: Err(fault),
        },
    }
}

// Calls procedure 0 on the whole document: how it ends, and the tally brought forward.
fn start(plan: &Plan, rows: &mut [u16], tally: Tally) -> Ended
    requires { CallableIn plan.now 0 0 × (length rows.old ≤ 12288) }
    ensures { StartsIn plan.now rows.old tally result rows.new }
{
    let none = RowPair {
        first: 0,
        second: 0,
    };
    let outcome = call(plan, Procedure(0), 0, none, rows, tally);
    end_with(tally, outcome)
}

// The same with the tally lent: it goes forward by value, and what comes back is stored.
fn start_lent(plan: &Plan, rows: &mut [u16], tally: &mut Tally) -> Result<u16, RunFault>
    requires { CallableIn plan.now 0 0 × (length rows.old ≤ 12288) }
    ensures { StartsIn plan.now rows.old tally.old (record { tally = tally.new; end = result }) rows.new }
{
    let next = start(plan, rows, *tally);
    *tally = next.tally;
    next.end
}

// The tally of a run that has done nothing.
fn fresh_tally() -> Tally
    ensures { result ≡ record { used = 0; calls = 0 } }
{
    Tally { used: 0, calls: 0 }
}

// The same with a tally of its own, lent to the work and read when it is back.
fn start_anew(plan: &Plan, rows: &mut [u16]) -> Ended
    requires { CallableIn plan.now 0 0 × (length rows.old ≤ 12288) }
    ensures { StartsIn plan.now rows.old (record { used = 0; calls = 0 }) result rows.new }
{
    let mut tally = fresh_tally();
    let end = start_lent(plan, rows, &mut tally);
    Ended { tally, end }
}

// Zeros a buffer from a place on.
fn clear_from(rows: &mut [u16], from: usize)
    ensures { rows.new ≡ zero_filled (length rows.old) (take from rows.old) }
{
    let kept = from.min(rows.len());
    rows[kept..].fill(0);
}

// How many numbers of the buffer stand at the end of the work.
fn numbers_kept(end: Result<u16, RunFault>, tally: Tally) -> usize
    ensures { result ≡ numbers_kept end tally }
{
    end.map_or(0, |_| 3 * usize::from(tally.used))
}

// The refusal of a run that a fault ends, where so many rows are free at first.
fn refusal_of(fault: RunFault, free: usize) -> RunningRefusal
    ensures { running_refusal result ≡ fault_answer free fault }
{
    match fault {
        RunFault::NoRule(procedure) => RunningRefusal::NoRule(procedure),
        RunFault::NoRow => RunningRefusal::NoRow(free),
        RunFault::TooManyCalls(most) => RunningRefusal::TooManyCalls(most as usize),
    }
}

// The answer to the work's end, where so many rows are free at first and the document took so many numbers.
fn answer_of(
    end: Result<u16, RunFault>,
    tally: Tally,
    free: usize,
    taken: usize,
) -> Result<Ran, RunningRefusal>
    ensures { running_answer result ≡ end_answer free taken end tally }
{
    let root = end.map_err(|fault| refusal_of(fault, free))?;
    Ok(Ran {
        root: usize::from(root),
        used: usize::from(tally.used),
        taken,
    })
}

// Runs procedure 0 on a document, which is all of the numbers, with room for where the trees of N places end.
// That the contract is admitted is asked here and of the two functions that call this, one after the other: a type that holds it would
// be made and used once.
fn run_with<const N: usize>(
    contract: &ContractTables,
    numbers: &[u16],
    rows: &mut [u16],
) -> Result<Ran, RunningRefusal>
    requires admitted { Admitted (handed contract.now).transformation }
    requires document { ReadDocument numbers.now }
    requires numbers_len_bound { (length numbers.now ≤ N) × (N ≤ most_numbers) }
    requires rows_len_bound { length rows.old ≤ 12288 }
    ensures { Closes (handed contract.now).transformation numbers.now rows.old result rows.new }
{
    let mut ends = [0u16; N];
    fill_ends(numbers, &mut ends);
    let mut plan = Plan::blank();
    plan.fill(contract, numbers, &ends);
    let Ended { tally, end } = start_anew(&plan, rows);
    clear_from(rows, numbers_kept(end, tally));
    answer_of(end, tally, rows.len() / 3, numbers.len())
}

// Runs procedure 0 on a document. There is room for the ends of sixteen trees or of as many as there may be.
fn run_document(
    contract: &ContractTables,
    numbers: &[u16],
    rows: &mut [u16],
) -> Result<Ran, RunningRefusal>
    requires { Admitted (handed contract.now).transformation × ReadDocument numbers.now × (length rows.old ≤ 12288) }
    ensures { Closes (handed contract.now).transformation numbers.now rows.old result rows.new }
{
    if numbers.len() <= 16 {
        return run_with::<16>(contract, numbers, rows);
    }
    run_with::<1023>(contract, numbers, rows)
}

// Runs an admitted transformation, where neither the buffer nor the document is refused; nothing is written where one is.
fn run_admitted(
    contract: &ContractTables,
    numbers: &[u16],
    rows: &mut [u16],
) -> Result<Ran, RunningRefusal>
    requires { Admitted (handed contract.now).transformation }
    ensures { EndsWith (after_admission (handed contract.now).transformation numbers.now rows.old) (running_answer result) rows.new }
{
    if tuples_wrong(3, MOST_ROWS, rows.len()) {
        return Err(RunningRefusal::Buffer);
    }
    let taken = read(contract.symbols, numbers)?;
    run_document(contract, &numbers[..taken], rows)
}

// Runs a contract's transformation on the document that the numbers begin with: the answer, with the rows in the buffer.
pub fn run(
    contract: &ContractTables,
    numbers: &[u16],
    rows: &mut [u16],
) -> Result<Ran, RunningRefusal>
    ensures { EndsWith (running (handed contract.now) numbers.now rows.old) (running_answer result) rows.new }
{
    admit(contract)?;
    run_admitted(contract, numbers, rows)
}
