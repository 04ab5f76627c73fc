// The decoder: a graph, and a state by value that each call takes and gives back. Every value of either is answered.
#![tactic(auto)]

ghost use Rattle.std.specs.Prelude.{◌≡◌, length};
ghost use Rattle.rules.specs.Image as Image;
ghost use Rattle.rules.specs.Instruct as Instruct;
ghost use Rattle.rules.specs.Pairs as Pairs;
ghost use Rattle.rules.specs.Search as Search;
ghost use Rattle.rules.specs.State as Fresh;
ghost use Rattle.comb.specs.Decoder.{decoder_of};

use comb_lent::instruct::instruct;
use comb_lent::reset::fresh_registers;
use comb_lent::word::carry_word;
use comb_lent::{pairs, search};
use lay::lay;
use rules::graph::{Accepted, Graph};
use rules::instruction::Instruction;
use rules::refusal::Refusal;
use rules::state::{Cycle, Searched, State, WordCycle};
use rules::tables::no_flags;

// A refused image opens no decoder: its graph is blank, and every call on it is answered, so graph and state stand beside the Result.
#[derive(Clone, Copy, Debug, PartialEq, Eq)]
pub struct Decoder {
    pub graph: Graph,
    pub state: State,
    pub opening: Result<Accepted, Refusal>,
}

fn fresh_state(graph: Graph, maximum: u32) -> State
    ensures { result ≡ Fresh.fresh_state graph maximum }
{
    let registers = fresh_registers(&lay(graph));
    let weights = graph.weights;
    let stalled = no_flags();
    State {
        registers,
        weights,
        stalled,
        maximum,
    }
}

// "The first maximum is no limit"
#[tactic(auto, unfolding(rules::specs::State::first_state))]
pub fn first_state(graph: Graph) -> State
    ensures { result ≡ Fresh.first_state graph }
{
    fresh_state(graph, 2_147_483_647)
}

// "Reset does this and empties the pair list; it keeps the maximum"
#[tactic(auto, unfolding(rules::specs::State::reset))]
pub fn reset(graph: Graph, state: State) -> State
    ensures { result ≡ Fresh.reset graph state }
{
    fresh_state(graph, state.maximum)
}

#[tactic(auto, using(crate::proofs::Whole::opens))]
pub fn open(bytes: &[u8]) -> Decoder
    ensures { result ≡ decoder_of (Image.opened bytes.now) }
{
    let opened = image::open(bytes);
    Decoder {
        graph: opened.graph,
        state: first_state(opened.graph),
        opening: opened.opening,
    }
}

#[tactic(auto, using(crate::proofs::Whole::executes))]
pub fn execute(graph: Graph, mut state: State, instruction: Instruction) -> Cycle
    ensures { result ≡ Instruct.instruct graph state instruction }
{
    let answer = instruct(&lay(graph), &mut state, instruction);
    Cycle { state, answer }
}

#[tactic(auto, using(crate::proofs::Whole::words))]
pub fn execute_word(graph: Graph, mut state: State, word: u32) -> WordCycle
    ensures { result ≡ Instruct.word_run graph state word }
{
    let answer = carry_word(&lay(graph), &mut state, word);
    WordCycle { state, answer }
}

// Search with what is left of the maximum.
#[tactic(auto, using(crate::proofs::Whole::searches_on))]
pub fn search_on(graph: Graph, mut state: State) -> Searched
    ensures { result ≡ Search.search_on graph state }
{
    let answer = search::search_on(&lay(graph), &mut state);
    Searched { state, answer }
}

// Search with a new maximum, 32 bits read as signed.
#[tactic(auto, using(crate::proofs::Whole::searches_to))]
pub fn search_to(graph: Graph, mut state: State, maximum: u32) -> Searched
    ensures { result ≡ Search.search_to graph state maximum }
{
    let answer = search::search_to(&lay(graph), &mut state, maximum);
    Searched { state, answer }
}

#[tactic(auto, using(crate::proofs::Whole::lists, crate::proofs::Whole::buffers))]
pub fn list_pairs(state: State, buffer: &mut [u16]) -> Result<usize, Refusal>
    ensures value { result ≡ Pairs.listed state (length buffer.old) }
    ensures buffer_after { buffer.new ≡ Pairs.buffered state buffer.old }
{
    pairs::list_pairs(&state.stalled, buffer)
}
