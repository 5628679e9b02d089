// The operations that change nothing.
ghost use Rattle.std.specs.Prelude.{◌≡◌, ◌≤◌};
ghost use Rattle.meaning.specs.Limits.{max_nodes};
ghost use Rattle.records.specs.Records.{record_of};
ghost use Rattle.requests.specs.Requests.{frame_of};
ghost use Rattle.calls.specs.Reads.{Readable, read_with};

use limits::operations;
use records::Version;
use requests::Frame;
use served::Served;

fn word(n: usize) -> u32
    requires { n ≤ max_nodes }
    ensures { result ≡ n }
{
    n as u32
}

pub fn read(cells: &[u32], free: usize, f: Frame, v: Version, w: Version, old: Version) -> Served
    requires { Readable (frame_of f) free (record_of v) (record_of w) }
    ensures { result ≡ read_with cells.now free (frame_of f) v w old }
{
    if f.operation == operations::GET {
        return served::of_got(lookup::get(cells, v, f.index), free, old);
    }
    if f.operation == operations::LEN {
        return served::answered(lookup::len(v), free, old);
    }
    if f.operation == operations::FIRST {
        return served::of_got(lookup::first(cells, v), free, old);
    }
    if f.operation == operations::LAST {
        return served::of_got(lookup::last(cells, v), free, old);
    }
    if f.operation == operations::COMPARE {
        return served::of_ordering(compare::cmp(cells, v, w), free, old);
    }
    served::answered(word(free), free, old)
}
