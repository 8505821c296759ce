ghost use Rattle.std.specs.Prelude.{◌≡◌, min, length};
ghost use Rattle.trees.specs.Written.{pick_limit};
ghost use Rattle.tree_text.specs.Seen.{Kept, lent_rows, lent_room};
ghost use Rattle.tree_text.specs.Written.{Blank};
ghost use Rattle.lines.specs.Seen.{seen, gave};
ghost use Rattle.job.specs.Account.{told, counts_of};
ghost use Rattle.job.specs.Law.{JobExact};
ghost use Rattle.job.specs.Reads.{job_lines, read_job};

use crate::account::Account;
use crate::counts::Counts;
use crate::moves::count_moves;
use crate::parts::count_parts;
use crate::word::read_word;
use lines::Reader;
use terms::{Fault, Mover, Refusal, Side};
use tree_text::Lent;
use trees::TreeRow;

// All lines of a job. Reader and buffers go one by one, each lent for the call alone.
fn read_lines(reader: &mut Reader, lent: &mut Lent) -> Result<Counts, Fault>
    ensures counts { gave result reader.new ≡ counts_of (job_lines (lent_rows lent.old) (lent_room lent.old)) (seen reader.old) }
    ensures kept { Kept lent.old lent.new }
{
    read_word::<Side>(reader)?;
    read_word::<Mover>(reader)?;
    let parts = count_parts(reader, lent)?;
    let moves = count_moves(reader)?;
    Ok(Counts { parts, moves })
}

// The job's text, with nothing after it.
fn read_text(job: &[u8], lent: &mut Lent) -> Result<Account, Fault>
    ensures account { result ≡ told (read_job (lent_rows lent.old) (lent_room lent.old) job.now) }
    ensures kept { Kept lent.old lent.new }
{
    let mut reader = Reader::open(job)?;
    let counts = read_lines(&mut reader, lent)?;
    let lines = reader.last();
    if !reader.rest.is_empty() {
        return Err(Refusal::BytesAfterJob.at(lines));
    }
    Ok(Account {
        lines,
        parts: counts.parts,
        moves: counts.moves,
    })
}

// Checks the text of a job, with buffers for its trees, which are blank afterwards.
pub fn check_text(job: &[u8], rows: &mut [TreeRow], picks: &mut [u8]) -> Result<Account, Fault>
    ensures account { result ≡ told (read_job (length rows.old) (min (length picks.old) pick_limit) job.now) }
    ensures blank { Blank rows.new picks.new }
    ensures exact { JobExact }
{
    let mut lent = Lent { rows, picks };
    let account = read_text(job, &mut lent);
    lent.clear();
    account
}
