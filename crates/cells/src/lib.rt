// The cells of nodes, 32 to a node, in one flat slice.
#![tactic(auto)]

ghost use Rattle.std.specs.Prelude.{◌≡◌, ◌+◌, ◌*◌, ◌≤◌, length};
ghost use Rattle.meaning.specs.Limits.{node_cells};
ghost use Rattle.cells.specs.Cells.{cells_of, put_cells};

use limits::NODE_CELLS;

// The cells of node n, copied out whole.
#[tactic(auto, unfolding(crate::specs::Cells::cells_of))]
pub fn cells_of(cells: &[u32], n: usize) -> [u32; NODE_CELLS]
    requires { node_cells * n + node_cells ≤ length cells.now }
    ensures { result ≡ cells_of cells.now n }
{
    let start = NODE_CELLS * n;
    let mut out = [0; NODE_CELLS];
    out.copy_from_slice(&cells[start..start + NODE_CELLS]);
    out
}

// Writes a over the cells of node n.
#[tactic(auto, unfolding(crate::specs::Cells::put_cells))]
pub fn put_cells(cells: &mut [u32], n: usize, a: [u32; NODE_CELLS])
    requires { node_cells * n + node_cells ≤ length cells.old }
    ensures { cells.new ≡ put_cells cells.old n a }
{
    let start = NODE_CELLS * n;
    cells[start..start + NODE_CELLS].copy_from_slice(&a);
}
