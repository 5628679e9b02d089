// Module 6: two versions element by element, then by length, whatever their bits.
#![tactic(auto)]

mod differences;

ghost use Rattle.std.specs.Prelude.{◌≡◌, ◌≤◌};
ghost use Rattle.meaning.specs.Limits.{max_length};
ghost use Rattle.shape.specs.Legal.{Legal};
ghost use Rattle.compare.specs.Compare.{ordering};
ghost use Rattle.compare.specs.Differences.{AlikeUntil};

use differences::first_difference;
use records::{NodeNo, Version};
use shape::form::Form;
use std::cmp::Ordering;

// Stops at the first difference.
pub fn cmp(cells: &[u32], a: Version, b: Version) -> Ordering
    requires left { Legal a.bits a.length }
    requires right { Legal b.bits b.length }
    ensures { result ≡ ordering cells.now a b }
{
    let left = Form::of(a.bits, a.length);
    let right = Form::of(b.bits, b.length);
    let n = a.length.min(b.length);
    let alike = alike_until(cells, a, b, left, right, n);
    for i in alike..n {
        let x = lookup::element(cells, left, NodeNo(a.root), i);
        let y = lookup::element(cells, right, NodeNo(b.root), i);
        if x != y {
            return x.cmp(&y);
        }
    }
    a.length.cmp(&b.length)
}

// An index before which the two have the same elements; 0 unless their trees have one form.
fn alike_until(cells: &[u32], a: Version, b: Version, left: Form, right: Form, n: u32) -> u32
    requires bits { (left.bits ≡ a.bits) × (right.bits ≡ b.bits) }
    requires limit { n ≤ max_length }
    ensures { (result ≤ n) × AlikeUntil cells.now a b left.height right.height result }
{
    if left != right {
        return 0;
    }
    first_difference(cells, left, NodeNo(a.root), NodeNo(b.root), 0, n)
}
