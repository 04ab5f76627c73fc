// Stages 5 and 6 over all vertices, and what these report in stage 7. Beside the stage stands what stage 3 made of it, `executed`: a struct of the
// two would be made by one caller and opened again by the four functions that take both.
#![tactic(auto)]

mod mark;

ghost use Rattle.std.specs.Prelude.{false, not, ◌&&◌, ◌≡◌, eqb};
ghost use Rattle.laws.specs.Choice.{◌and◌};
ghost use Rattle.laws.specs.Table.{paint};
ghost use Rattle.rules.specs.Reduce as Reduce;
ghost use Rattle.rules.specs.Registers as Registers;
ghost use Rattle.rules.specs.Respond.{vertex_report};
ghost use Rattle.rules.specs.Update.{update};
ghost use Rattle.rules.specs.declared.finding.Finding.TheVariants.{GrowLength};
ghost use Rattle.board.specs.Board.{vertices_on, nv_on};
ghost use Rattle.comb_settle.specs.Carried.{length_in};
ghost use Rattle.comb_settle.specs.Settled.{kept, seen_by};
ghost use Rattle.comb_settle.specs.On.{MarksOn, updated_on, shadow_on};

use crate::mark::mark_led;
use board::Table;
use comb_edge::stage::Stage;
use comb_vertex::execute::waits;
use comb_vertex::peer::propagating_peer;
use rules::finding::{Finding, Length};
use rules::registers::{Lead, VertexRegisters, view};
use rules::tables::{Registers, VertexFlags};

// What stages 5 and 6 make of one vertex.
#[derive(Clone, Copy, Debug, PartialEq, Eq)]
struct Settled {
    updated: u64,
    shadow: u64,
}

// registers are those after stage 5. Those that wait are taken apart, since so little is left of their shadow.
#[tactic(auto, unfolding(crate::specs::Settled::seen_by))]
fn seen(
    table: &Table,
    stalled: &VertexFlags,
    v: u8,
    peer: Option<Lead>,
    registers: VertexRegisters,
) -> u64
    ensures { result ≡ seen_by (vertices_on table.now) stalled.now v peer registers }
{
    if waits(table, v, registers) {
        registers.shadow(peer, true, stalled[usize::from(v)]).keep()
    } else {
        registers
            .shadow(peer, false, stalled[usize::from(v)])
            .keep()
    }
}

// "A fresh vertex is Stay, 0, no defect": most are, so these words are told by one test.
fn is_fresh(word: u64, is_virtual: bool) -> bool
    ensures { result ≡ eqb word (Registers.keep (Registers.fresh is_virtual)) }
{
    word == VertexRegisters::fresh(is_virtual).keep()
}

// Whether a vertex is fresh, not virtual, and led by nobody: then it stays so, and shows so.
#[tactic(auto, using(laws::specs::Tests::tests))]
fn is_free(word: u64, is_marked: bool) -> bool
    ensures { result ≡ (eqb word (Registers.keep (Registers.fresh false)) and not is_marked) }
{
    is_fresh(word, false) && !is_marked
}

// Whether a word is one that registers keep.
#[tactic(auto, unfolding(crate::specs::Settled::kept))]
fn is_kept(word: u64) -> bool
    ensures { result ≡ kept word }
{
    (word < 4_611_686_018_427_387_904) & (word / 288_230_376_151_711_744 % 4 < 3)
}

// Whether a vertex is grown, neither virtual nor stalled: then it stays and shows as it is. One test, since which are is hard to predict.
fn is_firm(word: u64, is_stalled: bool) -> bool
    ensures { result ≡ (((kept word && not (eqb (Registers.view word).grown 0)) && not (Registers.view word).is_virtual) && not is_stalled) }
{
    let registers = view(word);
    is_kept(word) & (registers.grown != 0) & !registers.is_virtual & !is_stalled
}

// A vertex that is neither fresh and virtual nor firm, by its peer.
fn settle_by(table: &Table, word: u64, stalled: &VertexFlags, v: u8, peer: Option<Lead>) -> Settled
    ensures updated_value { result.updated ≡ Registers.keep (update peer (Registers.view word)) }
    ensures shadow_value { result.shadow ≡ seen_by (vertices_on table.now) stalled.now v peer (update peer (Registers.view word)) }
{
    let next = view(word).update(peer);
    Settled {
        updated: next.keep(),
        shadow: seen(table, stalled, v, peer, next),
    }
}

// Only a marked vertex needs the walk that finds its peer. Of any other the compiler knows that nobody leads it, which saves 4 % of the
// instructions.
#[tactic(auto, using(crate::proofs::Settling::settling))]
fn settle_at(
    stage: &Stage,
    executed: &Registers,
    stalled: &VertexFlags,
    marks: &VertexFlags,
    v: u8,
) -> Settled
    requires { MarksOn stage.now.board.now.table stage.now.before.now stage.now.weights.now executed.now marks.now }
    ensures updated_value { result.updated ≡ updated_on stage.now.board.now.table stage.now.before.now stage.now.weights.now executed.now v }
    ensures shadow_value { result.shadow ≡ shadow_on stage.now.board.now.table stage.now.before.now stage.now.weights.now executed.now stalled.now v }
{
    let table = &stage.board.table;
    let word = executed[usize::from(v)];
    if is_fresh(word, true) {
        let fresh = VertexRegisters::fresh(true);
        Settled {
            updated: word,
            shadow: seen(table, stalled, v, None, fresh),
        }
    } else if is_firm(word, stalled[usize::from(v)]) {
        Settled {
            updated: word,
            shadow: word,
        }
    } else if marks[usize::from(v)] {
        let peer = propagating_peer(v, &stage.fetch(), executed);
        settle_by(table, word, stalled, v, peer)
    } else {
        settle_by(table, word, stalled, v, None)
    }
}

// Grown amounts are less than 67,108,864; from there up a length is no limit. The loop carries a number, since an enum would be packed and
// unpacked at each turn (docs/SPEED.md).
#[tactic(auto, using(laws::specs::Tests::tests), unfolding(crate::specs::Carried::length_in))]
fn length_in(length: u32) -> Length
    ensures { result ≡ length_in length }
{
    if length < 67_108_864 {
        Length::Ahead(length)
    } else {
        Length::NoLimit
    }
}

// "A vertex at Shrink after stage 5 reports its new grown amount"; no other bounds the length.
#[tactic(auto, using(crate::proofs::Reporting::lengths))]
fn shortest(length: u32, word: u64) -> u32
    ensures { GrowLength (length_in result) ≡ Reduce.reduce (GrowLength (length_in length)) (vertex_report (Registers.view word)) }
{
    let registers = view(word);
    if registers.speed.is_shrinking() {
        length.min(registers.grown)
    } else {
        length
    }
}

// Stages 5 and 6 of the vertices, into lent tables, and what these vertices find.
#[tactic(auto, using(crate::proofs::Reporting::all_told))]
pub fn settle(
    stage: &Stage,
    executed: &Registers,
    stalled: &VertexFlags,
    updated: &mut Registers,
    shadows: &mut Registers,
) -> Finding
    ensures updated_after { updated.new ≡ paint (nv_on stage.now.board.now.table) (updated_on stage.now.board.now.table stage.now.before.now stage.now.weights.now executed.now) updated.old }
    ensures shadows_after { shadows.new ≡ paint (nv_on stage.now.board.now.table) (shadow_on stage.now.board.now.table stage.now.before.now stage.now.weights.now executed.now stalled.now) shadows.old }
    ensures value { result ≡ Reduce.vertex_finding updated.new (nv_on stage.now.board.now.table) }
{
    let n = board::nv(&stage.board.table);
    let marks = mark_led(stage, executed);
    let mut length: u32 = 67_108_864;
    for v in 0..n {
        let word = executed[v];
        if is_free(word, marks[v]) {
            updated[v] = word;
            shadows[v] = word;
        } else {
            let settled = settle_at(stage, executed, stalled, &marks, v as u8);
            updated[v] = settled.updated;
            shadows[v] = settled.shadow;
            length = shortest(length, settled.updated);
        }
    }
    Finding::GrowLength(length_in(length))
}
