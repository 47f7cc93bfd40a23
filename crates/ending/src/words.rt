// What the table of sets is known to hold, said once for those who lean on it: every set is a word of 32 bits. Nothing is computed: of a column lent as a
// slice its type says so, of a table of columns no type does.
ghost use Rattle.demands.specs.Demands.{asked_of_nodes, asked_of_variables};
ghost use Rattle.asked.specs.Added.{Words};

use demands::Asked;

fn column(sets: &[u32])
    ensures { Words sets.now }
{}

pub fn words(asked: &Asked)
    ensures { Words (asked_of_nodes asked.now) × Words (asked_of_variables asked.now) }
{
    column(&asked[demands::NODES]);
    column(&asked[demands::VARIABLES]);
}
