// A fresh group's tables: every slot closed, every link down and every gauge cleared, no exchange and none that waits. With S of these
// records and a zeroed memory of S x N bytes they are the group that the theorems about lists of calls begin with.
#![tactic(auto)]

ghost use Rattle.std.specs.Prelude.{◌≡◌};
ghost use Rattle.group_fresh.specs.Fresh.{closed_table, down_links, FreshTables};

use conn_record::Record;
use group_table::Links;
use link_exchange::Role;

#[derive(Clone, Copy)]
pub struct Tables {
    pub records: [Record; group_table::MOST_SLOTS],
    pub links: Links,
}

pub fn fresh(role: Role) -> Tables
    ensures { (result.records ≡ closed_table) × (result.links ≡ down_links role) × FreshTables result.records result.links }
{
    let closed = conn_record::zero_record();
    let unheard = gauge::cleared();
    let idle = link_exchange::no_exchange();
    let none = link_exchange::empty_queue();
    let links = Links {
        active: [false; 4],
        gauges: [unheard; 4],
        role: role,
        exchange: idle,
        queue: none,
    };
    Tables {
        records: [closed; group_table::MOST_SLOTS],
        links: links,
    }
}
