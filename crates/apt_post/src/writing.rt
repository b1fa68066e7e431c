//! The blocks of acts, and the bytes of their tape.

ghost use Rattle.std.specs.Prelude.{◌≡◌, false, map, Ok, IfOk};
ghost use Rattle.apt_control.specs.Control.{control_run, nothing_held};
ghost use Rattle.apt_tapecode.specs.Tapecode as coding;
ghost use Rattle.apt_post.specs.Blocks as spec;
ghost use Rattle.apt_post.specs.Writing.{AreBlocks, CanWriteAll, whole_blocks};

use crate::Poster;
use crate::hands::byte_of;
use crate::poster::Text;
use apt_block::Block;
use apt_control::Act;
use apt_machine::Machine;
use std::alloc::{AllocError, Global};

/// The blocks of acts for a machine, one for each act.
#[tactic(auto, using(crate::proofs::Whole::are_whole, crate::proofs::Standing::blocks_of_are, crate::proofs::Running::tape_runs))]
pub fn blocks(alloc: Global, acts: &[Act], m: &Machine) -> Result<Vec<Block>, AllocError>
    requires { CanWriteAll acts.now }
    ensures value { IfOk result (λ v. v.items ≡ spec.blocks_of m.now acts.now) }
    ensures are { IfOk result (λ v. AreBlocks v.items) }
    ensures run { spec.IsProgram acts.now → IfOk result (λ v. control_run m.now.code (map (coding.byte_of m.now.code) (spec.text_of m.now.short v.items)) ≡ Ok acts.now) }
    ensures whole { m.now.changed ≡ false → IfOk result (λ v. v.items ≡ whole_blocks m.now.incremental m.now.seq 0 nothing_held acts.now) }
{
    blocks_value(alloc, acts, m)
}

fn blocks_value(alloc: Global, acts: &[Act], m: &Machine) -> Result<Vec<Block>, AllocError>
    requires { CanWriteAll acts.now }
    ensures { IfOk result (λ v. v.items ≡ spec.blocks_of m.now acts.now) }
{
    let mut poster = Poster::new(m);
    let mut blocks = Vec::new(alloc);
    'acts: for act in acts {
        blocks.push(poster.block(act))?;
    }
    Ok(blocks)
}

pub(crate) fn tape_bytes(alloc: Global, acts: &[Act], m: &Machine) -> Result<Vec<u8>, AllocError>
    requires { CanWriteAll acts.now }
    ensures { IfOk result (λ v. v.items ≡ spec.tape_bytes m.now acts.now) }
{
    let mut poster = Poster::new(m);
    let mut bytes = Vec::new(alloc);
    bytes.push(byte_of(m.code, b'%'))?;
    bytes.push(byte_of(m.code, b'\n'))?;
    'acts: for act in acts {
        let mut text = Text::new();
        poster.push_bytes(&mut text, act);
        bytes.extend_from_slice(&text)?;
    }
    Ok(bytes)
}
