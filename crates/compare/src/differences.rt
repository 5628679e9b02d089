// Where two trees of one form first differ.
ghost use Rattle.std.specs.Prelude.{◌≡◌, ◌≤◌};
ghost use Rattle.meaning.specs.Limits.{max_length};
ghost use Rattle.compare.specs.Differences.{FirstDifference, child_end};

use records::NodeNo;
use shape::form::Form;

// A node that both have is passed over, with all that is below it.
pub fn first_difference(cells: &[u32], form: Form, n: NodeNo, m: NodeNo, from: u32, to: u32) -> u32
    requires range { from ≤ to }
    requires limit { to ≤ max_length }
    ensures { FirstDifference cells.now form.bits form.height n.0 m.0 from to result }
{
    if n == m {
        return to;
    }
    if form.height == 0 {
        return in_leaf(cells, form, n, m, from, to);
    }
    let mut i = from;
    // No `for`: a turn goes on where the child ends.
    while i < to {
        let b = form.bucket(i);
        let x = lookup::cell_at(cells, n, b);
        let y = lookup::cell_at(cells, m, b);
        let e = child_end(form, i, to);
        let r = first_difference(cells, form.child(), NodeNo(x), NodeNo(y), i, e);
        if r < e {
            return r;
        }
        i = e;
    }
    to
}

fn in_leaf(cells: &[u32], form: Form, n: NodeNo, m: NodeNo, from: u32, to: u32) -> u32
    requires leaf { form.height ≡ 0 }
    requires range { from ≤ to }
    ensures { FirstDifference cells.now form.bits form.height n.0 m.0 from to result }
{
    for i in from..to {
        let b = form.bucket(i);
        if lookup::cell_at(cells, n, b) != lookup::cell_at(cells, m, b) {
            return i;
        }
    }
    to
}

// Where the child that holds index i ends, or the range. The limit keeps the next child's first index within a word.
fn child_end(form: Form, i: u32, to: u32) -> u32
    requires limit { i ≤ max_length }
    ensures { result ≡ child_end form.bits form.height i to }
{
    let s = form.height * form.bits;
    (((i >> s) + 1) << s).min(to)
}
