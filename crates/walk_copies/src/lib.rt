// The walk records copied out of the slices that a host lends, and back.
#![tactic(auto)]

ghost use Rattle.std.specs.Prelude.{◌≡◌, length};
ghost use Rattle.meaning.specs.Limits.{all_numbers, places};
ghost use Rattle.walk.specs.Walk.{slices, walks_of};

use walk::Walks;

pub fn load(numbers: &[u32], nodes: &[u32], indices: &[i32]) -> Walks
    requires numbers { length numbers.now ≡ all_numbers }
    requires nodes { length nodes.now ≡ places }
    requires indices { length indices.now ≡ places }
    ensures { walks_of result ≡ slices numbers.now nodes.now indices.now }
{
    let mut walks = Walks::all_closed();
    walks.numbers.copy_from_slice(numbers);
    walks.levels.nodes.copy_from_slice(nodes);
    walks.levels.indices.copy_from_slice(indices);
    walks
}

pub fn store(walks: &Walks, numbers: &mut [u32], nodes: &mut [u32], indices: &mut [i32])
    requires numbers { length numbers.old ≡ all_numbers }
    requires nodes { length nodes.old ≡ places }
    requires indices { length indices.old ≡ places }
    ensures { slices numbers.new nodes.new indices.new ≡ walks_of walks.now }
{
    numbers.copy_from_slice(&walks.numbers);
    nodes.copy_from_slice(&walks.levels.nodes);
    indices.copy_from_slice(&walks.levels.indices);
}
