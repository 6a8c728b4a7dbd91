// What is printed where it is the only argument that asks for it.
ghost use Rattle.std.specs.Prelude.{◌≡◌};
ghost use Rattle.ss_arguments.specs.Modes.{words_of};
ghost use Rattle.summarystore.specs.Plan.{notice_named, notice_of};

/// The help text.
pub const HELP: &str = "\
usage: summarystore STORE [run | check | gen SEED COUNT | [sessions] [framed] [batch] | frames [batch] | follow [batch]]

Reads commands from standard input, one a line, and replies to each on standard
output. STORE is the file that keeps the streams. It is made where there is none,
and the next run goes on where the last one ended, also after a crash: each ok
is on the disk before it is printed. One program at a time can use a store.
  check  reads no input and writes nothing: it prints how many streams, windows,
         landmarks and values in these STORE has, or what of it is damaged
  gen    runs commands of its own in place of the input: they give a stream g
         COUNT values, 1 to 100000, made from SEED, 0 to 2^64-1. It prints how
         many were ok and how many refused, and what six queries at the end say
  sessions
         reads the lines of eight sessions: @0 to @7 stands before a command, and
         before each line of the reply to it. A session can also read windows in
         pieces, as they are now, whatever comes after: @1 cursor open NAME says
         how many there are, @1 cursor next C shows the next C of them, at most
         1000, and @1 cursor close ends it
  frames
         does the events, and writes a frame of 64 bytes for each that is
         accepted, in place of the replies: the event, and its number in its
         stream. Nothing is written to any other line, and drop isn't done
  follow
         reads such frames, and does the event of each that is the next of its
         stream: ok N K. The event of old is there already, and gap E says that
         the stream has E events, and that frames behind these are missing

  create NAME exp B R S  a new stream: R windows of each of the lengths S, S*B,
                         S*B*B and so on, the longer ones for older values
  create NAME power P Q R S
                         the same with R*g^(P-1) windows of the length S*g^Q,
                         for g = 1, 2, 3 and so on
  create .. within E     either of these, where no window crosses a multiple of
                         E: within 86400 keeps days of seconds whole, so that
                         what is asked of them is answered by one number
  append NAME T V        the value V at the time T, later than the last: ok N K
                         says that the stream has N values in K windows
  landmark NAME open T   from here on the values are kept one by one, until
  landmark NAME close T  the landmark is closed again
  drop NAME              removes a stream and all its values: NAME is free again
  query NAME count|sum|min|max|mean T1 T2
                         what is known of the values from the time T1 to T2: the
                         least and the greatest that the answer can be. A mean is
                         a whole number, or a fraction in lowest terms, as 17/2
  query NAME has V T1 T2
                         whether one of these values is V: has absent says no,
                         has present yes, and has maybe that it may be so
  series NAME count|sum|min|max|mean T1 T2 STEP
                         the same in rows of STEP times each, at most 100000:
                         the first time of a row, and what is known of it
  estimate NAME count|sum|mean T1 T2
                         the same ends, and between them the likeliest answer
  estimates NAME count|sum|mean T1 T2 STEP
                         the same in rows, as series has them
  certify NAME count|sum|mean lo|hi T1 T2
                         values that the windows may have had, by which the
                         answer is just the lo, or the hi, that query prints
  last NAME              its last time, and what is known of its newest value
  values NAME T1 T2      the values of its landmarks from the time T1 to T2
  windows NAME           the windows of a stream, oldest first
  list                   all streams, in order of creation

NAME has up to 32 letters, digits, _, - and . in it. B is 2 to 16, P 1 to 4, Q 0
to 3, R and S are 1 to 65536, E is 1 to 2^32-1, times are 0 to 2^62, and values
have 64 bits. An empty line is no command, and a line that begins with # isn't
either. Any other line gets refused and a word that says why.

Exit statuses:
  0  done                              5  a read of standard input failed
  1  done, and a line was refused:     6  a write of standard output failed
     only with --strict                7  out of memory
  2  unknown arguments                 8  the input has more than 2^36 bytes
  3  STORE isn't a store or is         9  a record in STORE isn't what it was
     damaged; it is left as it was        when it was written
  4  STORE can't be used, a call
     of it failed, or another
     program uses it

  summarystore --help, -h     prints this text
  summarystore --version, -V  prints the version
With --batch before STORE, commands that arrive together come to the disk
together, and their replies after that. That is faster where many arrive at once.
Each ok is on the disk all the same.
With --framed before STORE, each ok of an event but a drop has a line behind it:
frame, and its frame as 128 hexadecimal digits.
With --explain before STORE, or at a terminal, standard error says why lines are
refused, for the first 20 of them, and in follow also what a gap lacks. With
--strict before STORE it does so too, and the status is 1 where a line was
refused, or a gap was left, and 0 otherwise would be.
With --existing before STORE, STORE isn't made where there is none: status 4.
With --checked before STORE, a new STORE has a checksum in each of its records.
Where a store without them stands, the status is 4.
A store whose name begins with - is ./-NAME.
Documents: README.md, docs/GUIDE.md.
";

const VERSION: &str = "summarystore 1.0.0\n";

/// What is printed in the place of a run.
#[derive(Clone, Copy, Debug, PartialEq, Eq)]
pub enum Notice {
    Help,
    Version,
}

impl Notice {
    pub fn text(self) -> &'static str {
        match self {
            Notice::Help => HELP,
            Notice::Version => VERSION,
        }
    }
}

/// The notice that a word asks for.
pub fn notice_named(word: &str) -> Option<Notice>
    ensures { result ≡ notice_named word.now }
{
    match word {
        "--help" | "-h" => Some(Notice::Help),
        "--version" | "-V" => Some(Notice::Version),
        _ => None,
    }
}

/// The notice that the words of the command line ask for: it is the only one after the program's name.
pub fn notice_of(words: &[String]) -> Option<Notice>
    ensures { result ≡ notice_of (words_of words.now) }
{
    match words {
        [_, word] => notice_named(word.as_str()),
        _ => None,
    }
}
