// The table of programs that the second engine fills: the ordinal of the parent and the depth of each program, in one small record.
#![tactic(auto)]

ghost use Rattle.std.specs.Prelude.{◌≡◌, ◌≤◌, length, take};
ghost use Rattle.program_table.specs.Nodes.{nodes_of, in_front};

use format::Node;

// Writes the first `n` records of the table from their parents and depths. The records after them stay as they were.
pub fn put_nodes(table: &mut [Node], parents: [u32; 1024], depths: [u32; 1024], n: usize)
    requires { (n ≤ length table.old) × (n ≤ 1024) }
    ensures { table.new ≡ in_front (nodes_of (take n parents) (take n depths)) table.old }
{
    for i in 0..n {
        table[i] = Node {
            parent: parents[i],
            depth: depths[i],
        };
    }
}
