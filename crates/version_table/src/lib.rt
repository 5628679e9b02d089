// The version table as a host lends it, a slice of records: one record read or replaced, and all of them copied out and back.
#![tactic(auto)]

ghost use Rattle.std.specs.Prelude.{◌≡◌, true, ◌<◌, length, set, get_or};
ghost use Rattle.version_table.specs.Tables.{blank, blanks, copied, table_of, stored};

use limits::VERSIONS;
use records::Version;

// One record.
pub fn version_at(versions: &[Version], n: usize) -> Version
    requires { n < length versions.now }
    ensures { result ≡ get_or versions.now n blank }
{
    versions[n]
}

// One record replaced.
pub fn replace_at(versions: &mut [Version], n: usize, version: Version)
    requires { n < length versions.old }
    ensures { versions.new ≡ set versions.old n version }
{
    versions[n] = version;
}

fn blank_table() -> [Version; VERSIONS]
    ensures { result ≡ blanks }
{
    [Version {
        live: 0,
        root: 0,
        bits: 0,
        length: 0,
    }; VERSIONS]
}

// How many records are copied: all or none.
fn how_many(wanted: bool, count: usize) -> usize
    ensures { result ≡ copied wanted count }
{
    if wanted & (count == VERSIONS) {
        return VERSIONS;
    }
    0
}

// Record by record here and below: the library's copy of these would want memmove of C, and the header says which functions are wanted.
// The table by value; of a slice of another length, blank records.
pub fn table_of(versions: &[Version]) -> [Version; VERSIONS]
    ensures { result ≡ table_of versions.now }
{
    let mut table = blank_table();
    let all = how_many(true, versions.len());
    let mut n = 0;
    while n < all {
        table[n] = versions[n];
        n = n + 1;
    }
    table
}

// The table back into the slice, if that is wanted and the slice has its length.
pub fn store_table(versions: &mut [Version], table: [Version; VERSIONS], wanted: bool)
    ensures { versions.new ≡ stored wanted table versions.old }
{
    let all = how_many(wanted, versions.len());
    let mut n = 0;
    while n < all {
        versions[n] = table[n];
        n = n + 1;
    }
}
