// One turn of a search: a finding, and the Grow that it allows.
ghost use Rattle.std.specs.Prelude.{◌≡◌};
ghost use Rattle.rules.specs.Search.{begun, turn};
ghost use Rattle.board.specs.Board.{graph_on};
ghost use Rattle.comb_search.specs.Turn.{clamped, next_of, took};

use board::Board;
use comb_cycle::cycle::run_cycle;
use interface::fix_conflict_order;
use rules::finding::{Finding, Length};
use rules::instruction::Instruction;
use rules::refusal::Refusal;
use rules::state::State;

#[derive(Clone, Copy, Debug, PartialEq, Eq)]
pub(crate) enum Turn {
    // The search ends with this.
    Found(Finding),
    // It grew by this length, and so many more steps of it are left to be counted.
    Grew { length: u32, more: u32 },
}

// "Otherwise clamp to the maximum; at 0 stop with length 0; else Grow"
#[tactic(auto, unfolding(crate::specs::Turn::to_grow, laws::specs::Choice::pick))]
fn clamped(length: u32, maximum: u32) -> Turn
    ensures { result ≡ clamped length maximum }
{
    match length.min(maximum) {
        0 => Turn::Found(Finding::GrowLength(Length::Ahead(0))),
        length => Turn::Grew { length, more: 0 },
    }
}

// What a finding leads to: the end, or the length to grow by.
fn after_finding(finding: Finding, maximum: u32) -> Result<Turn, Refusal>
    ensures { result ≡ next_of finding maximum }
{
    match finding {
        Finding::Conflict(..) => Ok(Turn::Found(fix_conflict_order(finding))),
        Finding::GrowLength(Length::NoLimit) => Ok(Turn::Found(finding)),
        Finding::GrowLength(Length::Behind(_)) => Err(Refusal::NegativeLength),
        Finding::GrowLength(Length::Ahead(n)) => Ok(clamped(n, maximum)),
    }
}

// "Grow and lower the maximum"
#[tactic(auto, using(crate::proofs::Ways::turn_ends))]
pub(crate) fn take_turn(board: &Board, state: &mut State) -> Result<Turn, Refusal>
    ensures { record { state = state.new; turn = result } ≡ took (turn (graph_on board.now.table) (begun state.old)) }
{
    let finding = run_cycle(board, state, Instruction::FindObstacle)?;
    let turn = after_finding(finding, state.maximum)?;
    let Turn::Grew { length, .. } = turn else {
        return Ok(turn);
    };
    run_cycle(board, state, Instruction::Grow { length })?;
    state.maximum -= length;
    Ok(turn)
}
