// Recorded words, read and packed again. A line of standard input is a letter and a number of 32 bits:
//     w 688128    what the word asks, and the word that this packs to
//     i 32768     the words with this index in each place that takes one
//     l 2         the word that grows by this length
// tools/expect_words.py makes the lines, and what is to be written for each, from document 01 and from what the Rust packed.
#![tactic(auto)]

mod lines;
mod shown;

use crate::lines::{Lines, number};
use crate::shown::Shown;
use batch::{buffer, read_full};
use rules::index::{LayerId, NodeIndex, VertexIndex};
use rules::instruction::{Asked, CompactGrowState, Instruction};
use std::io::Input;

fn show_word(rt: &impl Print, word: u32) {
    let _ = match instruction::unpack(word) {
        Ok(Asked::Says(asked)) => {
            println!(rt;
                "word {word} {} {}",
                Shown(asked),
                Shown(instruction::pack(asked))
            )
        }
        Ok(Asked::Reset) => println!(rt; "word {word} Reset {}", Shown(instruction::pack_reset())),
        Err(refusal) => println!(rt; "word {word} r {refusal}"),
    };
}

fn show_pack(rt: &impl Print, asked: Instruction) {
    let _ = println!(rt; "pack {} {}", Shown(asked), Shown(instruction::pack(asked)));
}

fn show_index(rt: &impl Print, n: u16) {
    let node = NodeIndex(n);
    let zero = NodeIndex(0);
    for asked in [
        Instruction::SetSpeed {
            node,
            speed: CompactGrowState::Grow,
        },
        Instruction::SetBlossom {
            node,
            blossom: zero,
        },
        Instruction::SetBlossom {
            node: zero,
            blossom: node,
        },
        Instruction::AddDefectVertex {
            vertex: VertexIndex(n),
            node: zero,
        },
        Instruction::AddDefectVertex {
            vertex: VertexIndex(0),
            node,
        },
        Instruction::LoadDefectsExternal { time: LayerId(n) },
    ] {
        show_pack(rt, asked);
    }
}

// The letter is the line's own, and may be any.
fn show(rt: &impl Print, letter: u8, number: u32) {
    match letter {
        b'w' => show_word(rt, number),
        b'i' => {
            if let Ok(n) = u16::try_from(number) {
                show_index(rt, n);
            }
        }
        b'l' => show_pack(rt, Instruction::Grow { length: number }),
        _ => {
            let _ = rt.println("?");
        }
    }
}

fn main(rt: HostRuntime) {
    let mut buffer = buffer::<4_096>();
    let n = read_full(&mut rt.reader(), &mut buffer);
    for (letter, digits) in Lines(&buffer[..n]) {
        show(&rt, letter, number(digits));
    }
}
