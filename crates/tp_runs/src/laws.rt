//! What holds of every run of the machine.
ghost use Rattle.tp_runs.specs.Laws.{AlwaysFitLogs, HasAlwaysAllCommits, HasAlwaysAllEnds, IsAlwaysPrintable, IsAlwaysTrusted, SendsFewMails};

/// Of every scenario that is run, after every list of steps that name what exists, in any order, with any mail lost or
/// delivered again, with timers, and with crashes of servers and coordinators, in a receipt or not, and boots, the history
/// is trusted so far: its facts agree, its commits are trusted, serial and apart, its aborts have causes, what comes from
/// outside is what the steps say, and the values are those that the servers have settled. Where each transaction is
/// submitted, and its coordinator is up and has no request outstanding, each was decided, and settled so at each of its
/// servers; and where that is so, the values are those that all commits leave.
pub fn histories_are_trusted()
    ensures trusted { IsAlwaysTrusted }
    ensures ended { HasAlwaysAllEnds }
    ensures whole { HasAlwaysAllCommits }
{}

/// Of every scenario that is run, a list of steps that name what exists sends at most 128 times as many mails as it has
/// steps. A step sends one, or one to each of the at most 16 servers of a transaction, or none; where it ends a
/// transaction, one more for each query that waited for it, whose own step sent none; and where a server boots, one to the
/// coordinator of each of the at most 128 transactions that it has prepared.
pub fn mails_are_few()
    ensures { SendsFewMails }
{}

/// Of every scenario that is run, after every list of steps that name what exists, each record on each actor's log fits
/// a log: it is spelled in at most 1,048,576 bytes. A vote has at most 16 deeds and 16 verdicts, a commit at most 17
/// instances of at most 16 proofs, and a verdict names at most 256 credentials, each once; so the longest is spelled in
/// fewer than 300,000 bytes.
pub fn records_fit()
    ensures { AlwaysFitLogs }
{}

/// Of every scenario that is run, after every list of fewer than 2^57 steps that name what exists, whose numbers are of 64
/// bits, what it shows may be printed: all that a fact names exists, each number is of its type, a proof of a commit has a
/// rule, rounds that were spent met something, and each item has a value. What two such runs print can be told apart where
/// they differ.
pub fn histories_are_printable()
    ensures { IsAlwaysPrintable }
{}
