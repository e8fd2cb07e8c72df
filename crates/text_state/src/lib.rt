// The group of a replay, and the lines of the replay format that are no calls of it: those that look at it, and those that lay something in.
#![tactic(auto)]

ghost use Rattle.std.specs.Prelude.{◌≡◌, ◌++◌, take, drop};
ghost use Rattle.layout.specs.Layout.{laid_at};
ghost use Rattle.group_table.specs.Table.{gauge_set};
ghost use Rattle.text_state.specs.World.{table_to, links_to, output_to, laid_in_of};

use conn_record::Record;
use gauge::Gauge;
use group_table::Links;
use setup::Settings;
use text_records::{ROWS, print};
use text_stream::output::Output;

// The group as the last call left it, its memory aside, of which it has the first `len` bytes; of the table it has the first `count` rows.
// The books of the pool and the settings beside it; and the output, to which each line prints its answer.
// `len` and `count` are lengths beside fixed memory: the format's LEN and COUNT, which may be out of range and are lent as they stand.
#[derive(Clone, Copy)]
pub struct World {
    pub s: u32,
    pub n: u32,
    pub len: usize,
    pub table: [Record; ROWS],
    pub count: usize,
    pub links: Links,
    pub books: [u8; 64],
    pub settings: Settings,
    pub output: Output,
}

impl World {
    pub fn bad(&mut self)
        ensures { self.new ≡ output_to self.old self.new.output }
    {
        self.output.text("bad line\n");
    }

    // Lays a record into a slot from 1 to COUNT.
    pub fn lay_record(&mut self, slot: usize, c: Record)
        ensures { self.new ≡ output_to (table_to self.old (laid_in_of self.old.table self.old.count slot c)) self.new.output }
    {
        if slot < 1 || self.count.min(ROWS) < slot {
            return self.bad();
        }
        self.table[slot - 1] = c;
        self.output.text("record\n");
    }

    // Lays bytes into the memory from byte `at` on, where they lie within it.
    pub fn poke(&mut self, mem: &mut [u8], given: &[u8], at: usize, count: usize)
        ensures world { self.new ≡ output_to self.old self.new.output }
        ensures memory { mem.new ≡ laid_at (take self.old.len mem.old) at (take count given.now) ++ drop self.old.len mem.old }
    {
        let len = self.len.min(mem.len());
        let k = count.min(given.len());
        if len < at || len - at < k {
            return self.bad();
        }
        layout::put_bytes(&mut mem[..len], at, &given[..k]);
        self.output.text("poke\n");
    }

    // Prints bytes of the memory from byte `at` on, where they lie within it.
    pub fn memory(&mut self, mem: &[u8], at: usize, count: usize)
        ensures { self.new ≡ output_to self.old self.new.output }
    {
        let mem = &mem[..self.len.min(mem.len())];
        if mem.len() < at || mem.len() - at < count {
            return self.bad();
        }
        text_answers::memory(&mut self.output, &mem[at..at + count]);
    }

    pub fn table(&mut self)
        ensures { self.new ≡ output_to self.old self.new.output }
    {
        let rows = &self.table[..text_records::rows(self.count)];
        print::tables(&mut self.output, rows, &self.links);
        text_link::lines(&mut self.output, &self.links);
    }

    // A link's health, as the press room sees it.
    pub fn health(&mut self, link: u8)
        ensures { self.new ≡ output_to self.old self.new.output }
    {
        let g = group_table::gauge_of(self.links, link);
        self.output.text("health ");
        text_gauge::health(&mut self.output, gauge::health_of(g));
    }

    // Lays a gauge in at a link.
    pub fn lay_gauge(&mut self, link: u8, g: Gauge)
        ensures { self.new ≡ output_to (links_to self.old (gauge_set self.old.links link g)) self.new.output }
    {
        self.links = group_table::set_gauge(self.links, link, g);
        self.output.text("gauge\n");
    }
}
