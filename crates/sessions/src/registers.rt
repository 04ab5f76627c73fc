// The registers' lines: `v` index, speed, grown, virtual, defect, node, root.
ghost use Rattle.std.specs.Prelude.{◌≡◌};

use crate::line::Line;
use crate::output::Output;
use rules::index::NodeIndex;
use rules::registers::{VertexRegisters, view};
use rules::state::State;

// A number, `-` for none or `v` for the virtual node.
fn put_node(line: &mut Line, node: NodeIndex)
    ensures { line.new.bytes.ghost_name ≡ line.old.bytes.ghost_name }
{
    match node.0 {
        65_535 => line.text(b" -"),
        65_534 => line.text(b" v"),
        n => line.number(u32::from(n)),
    }
}

fn show_vertex(bytes: &mut [u8], at: usize, v: u32, vertex: VertexRegisters) -> usize {
    let mut line = Line { bytes, at };
    line.byte(b'v');
    line.number(v);
    line.number(u32::from(vertex.speed));
    line.number(vertex.grown);
    line.number(u32::from(vertex.is_virtual));
    line.number(u32::from(vertex.is_defect));
    put_node(&mut line, vertex.node);
    put_node(&mut line, vertex.root);
    line.byte(b'\n');
    line.at
}

pub(crate) fn show_registers(out: &mut Output<impl Print>, nv: usize, state: &State) {
    for (v, word) in (0..256).zip(state.registers.iter().take(nv)) {
        out.line(|bytes, at| show_vertex(bytes, at, v, view(*word)));
    }
}
