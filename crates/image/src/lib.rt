// A DCT image to a graph, its flags applied, or the refusal that document 01 names.
#![tactic(auto)]

ghost use Rattle.std.specs.Prelude.{◌≡◌, ℕ, ◌≤◌, ◌<◌, slice_index};
ghost use Rattle.std.proofs.Math.Option.{none};
ghost use Rattle.laws.specs.Choice.{pick};
ghost use Rattle.rules.specs.Image.{fusion, edge_count, image_refusal, vertex_word, condition, edge_word, unit_word, fusion_word, is_conditioned, unit_words, graph_of, blank_graph, opened};

use crate::units::Units;
use rules::graph::{Accepted, Graph, Opened};

mod units;

// "Without bit 0, conditions and layers are checked, then ignored"
#[tactic(auto, using(crate::proofs::Words::flags))]
fn unless_ignored(bytes: &[u8], x: u16) -> u16
    ensures { result ≡ pick (fusion bytes.now) x 65_535 }
{
    if image_records::fusion(bytes) {
        x
    } else {
        65535
    }
}

#[tactic(auto, unfolding(rules::specs::Image::vertex_word))]
fn vertex_word(bytes: &[u8], v: u16) -> u32
    ensures { result ≡ vertex_word bytes.now v }
{
    let vertex = image_records::vertex_record(bytes, v);
    let layer = unless_ignored(bytes, vertex.layer);
    u32::from(layer) + u32::from(vertex.default_virtual) * 65536
}

#[tactic(auto, unfolding(rules::specs::Image::condition))]
fn condition(bytes: &[u8], e: u16) -> u16
    ensures { result ≡ condition bytes.now e }
{
    let edge = image_records::edge_record(bytes, e);
    unless_ignored(bytes, edge.condition)
}

#[tactic(auto, using(crate::proofs::Ends::left_low, crate::proofs::Ends::right_low), unfolding(rules::specs::Image::edge_word))]
fn edge_word(bytes: &[u8], e: u16) -> u32
    requires { (image_refusal bytes.now ≡ none) × (e < edge_count bytes.now) }
    ensures { result ≡ edge_word bytes.now e }
{
    let edge = image_records::edge_record(bytes, e);
    let conditioned = condition(bytes, e);
    u32::from(edge.left) + u32::from(edge.right) * 256 + u32::from(conditioned) * 65536
}

#[tactic(auto, using(std::proofs::lemmas::Bool::Decides::nat_tests), unfolding(rules::specs::Image::unit_word, laws::specs::Choice::pick))]
fn unit_word(bytes: &[u8], u: u16) -> u32
    ensures { result ≡ unit_word bytes.now u }
{
    let unit = image_records::unit_record(bytes, u);
    let vertex = if unit.kind == 0 { 0 } else { unit.vertex };
    u32::from(unit.edge) + u32::from(vertex) * 1024 + u32::from(unit.kind) * 262144
}

#[tactic(auto, unfolding(rules::specs::Image::is_conditioned))]
fn is_conditioned(bytes: &[u8], e: u16) -> bool
    ensures { result ≡ is_conditioned bytes.now e }
{
    condition(bytes, e) != 65535
}

#[tactic(auto, unfolding(rules::specs::Image::fusion_word))]
fn fusion_word(bytes: &[u8], e: u16) -> u32
    ensures { result ≡ fusion_word bytes.now e }
{
    u32::from(e) + u32::from(condition(bytes, e)) * 1024 + 524288
}

// ---- the tables. Four private functions ask that the image is not refused: `accepted`, which `open` calls once it knows, and those within it. A type
// for it would be made in `open` alone, and opened by each.

// A word for each index below `n`, and 0 after them.
fn table<const N: usize, F: Fn(u16) -> u32>(n: u16, word: F) -> [u32; N]
    requires fits { n ≤ N }
    requires callable { (k : ℕ) → k < n → F.pre word k }
    ensures each { (k : ℕ) → k < n → F.post word k (slice_index result k) }
    ensures rest { (k : ℕ) → n ≤ k → slice_index result k ≡ 0 }
{
    let mut words = [0u32; N];
    for k in 0..n {
        words[usize::from(k)] = word(k);
    }
    words
}

// "Without bit 1 unit records are treated so, and there are no units";
// "With both, each conditioned edge also gets one FusionMatch"
#[tactic(auto, using(crate::proofs::UnitSteps::unit_steps))]
fn units_of(bytes: &[u8]) -> Units
    requires { image_refusal bytes.now ≡ none }
    ensures { result ≡ unit_words bytes.now }
{
    let mut units = Units::new();
    if image_records::offloading(bytes) {
        let header = image_records::read_header(bytes);
        for u in 0..header.units {
            units.push(unit_word(bytes, u));
        }
        for e in 0..header.edges {
            if is_conditioned(bytes, e) {
                units.push(fusion_word(bytes, e));
            }
        }
    }
    units
}

// ---- the graph

#[tactic(auto, using(crate::proofs::UnitSteps::few))]
fn graph_of(bytes: &[u8]) -> Graph
    requires { image_refusal bytes.now ≡ none }
    ensures { result ≡ graph_of bytes.now }
{
    let header = image_records::read_header(bytes);
    let units = units_of(bytes);
    Graph {
        nv: usize::from(header.vertices),
        ne: usize::from(header.edges),
        nu: units.len(),
        vertices: table(header.vertices, |v| vertex_word(bytes, v)),
        edges: table(header.edges, |e| edge_word(bytes, e)),
        weights: table(
            header.edges,
            |e| image_records::edge_record(bytes, e).weight,
        ),
        units: units.into_array(),
    }
}

#[tactic(auto, using(crate::proofs::Opens::accepted_is))]
fn accepted(bytes: &[u8]) -> Opened
    requires { image_refusal bytes.now ≡ none }
    ensures { result ≡ opened bytes.now }
{
    let header = image_records::read_header(bytes);
    Opened {
        graph: graph_of(bytes),
        opening: Ok(Accepted {
            units: usize::from(header.units),
            start: header.session,
        }),
    }
}

#[tactic(auto, unfolding(rules::specs::Image::blank_graph))]
fn blank_graph() -> Graph
    ensures { result ≡ blank_graph }
{
    Graph {
        nv: 0,
        ne: 0,
        nu: 0,
        vertices: [0; 256],
        edges: [0; 1024],
        weights: [0; 1024],
        units: [0; 2048],
    }
}

// The graph and where its session records start, or the first refusal in order of checking.
#[tactic(auto, using(crate::proofs::Opens::opening))]
pub fn open(bytes: &[u8]) -> Opened
    ensures { result ≡ opened bytes.now }
{
    match image_refusal::image_refusal(bytes) {
        Ok(()) => accepted(bytes),
        Err(why) => Opened {
            graph: blank_graph(),
            opening: Err(why),
        },
    }
}
