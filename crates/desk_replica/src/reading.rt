//! What is read off the elements of a sequence, part after part from the front.

ghost use Rattle.std.specs.Prelude.{◌≡◌, ◌<◌, ◌+◌, Some, IfOk, IfErr, length, slice_get};
ghost use Rattle.bg_types.specs.WellFormed.{MayFollow};
ghost use Rattle.bg_types.specs.declared.op.OpView.TheVariants.{Insert};
ghost use Rattle.rga_tree.specs.Elements.{elements};
ghost use Rattle.rga_tree.specs.Row.{hidden_ids};

use bg_types::{Id, Op};
use rga_tree::{Element, Sequence, Unpacked};

/// The insertion that made an element.
pub fn insertion_of(e: &Element) -> Op
    requires { MayFollow e.now.parent e.now.id }
    ensures { result ≡ Insert e.now.id e.now.parent e.now.ch }
{
    Op::insert(e.id, e.parent, e.ch).unwrap()
}

/// The identifier of hidden element k.
pub fn hidden_at<S: Sequence>(seq: &S, k: usize) -> Id
    requires { k < length (hidden_ids (elements (S.content seq.now))) }
    ensures { slice_get (hidden_ids (elements (S.content seq.now))) k ≡ Some result }
{
    let mut left = k;
    let mut unpacked = Unpacked::new();
    for p in 0..seq.part_count() {
        match hidden_in(seq.part(p, &mut unpacked), left) {
            Ok(id) => return id,
            Err(rest) => left = rest,
        }
    }
    unreachable!()
}

/// The identifier of hidden element k of a list, or, where the list has too few, how much k is
/// greater than their number.
fn hidden_in(row: &[Element], k: usize) -> Result<Id, usize>
    ensures ok { IfOk result (λ id. slice_get (hidden_ids row.now) k ≡ Some id) }
    ensures err { IfErr result (λ rest. k ≡ length (hidden_ids row.now) + rest) }
{
    let mut left = k;
    for e in row {
        if e.hidden {
            if left == 0 {
                return Ok(e.id);
            }
            left -= 1;
        }
    }
    Err(left)
}
