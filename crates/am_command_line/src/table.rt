//! The commands of `amcover`: what each asks for, and their help texts. The man page and the
//! completions are made from the texts too.

use crate::options::{
    AFTER, ALERTS, ASCII, ASKED, ASKED_OF_ALERTS, AT, AT_OF_ASK, CHECK, CONFIG, COUNTED,
    CommandRow, FROM, IMPOSSIBLE, JSON, LIMIT, Need, OPEN, ROUTES, SET, SILENCES, STEPS, UNIVERSE,
};
use crate::requests::{ask_request, universe_request, words_of};
use crate::steps::Steps;
use clap::ArgMatches;
use std::alloc::{AllocError, Global};
use std::num::NonZeroU64;

/// What a command line asks for. In a request about every alert, the impossible lists of the
/// universe file count, if there is one, and `ascii` says whether only alerts of printable ASCII
/// count.
#[derive(Drop)]
pub enum Request<'a> {
    /// What is wrong with a configuration and with silences, for every alert.
    Lint {
        ascii: bool,
    },
    /// To which receivers the alerts of alerting rules go, or which of them go to one of these
    /// receivers.
    Where {
        ascii: bool,
        receivers: Vec<&'a str>,
    },
    /// Which alerts end at each route, or at each route that has one of these receivers.
    Routes {
        ascii: bool,
        receivers: Vec<&'a str>,
    },
    /// Which alerts go to other receivers under a new configuration than under an old one.
    Compare {
        ascii: bool,
    },
    /// Each list of receivers to which some alert goes.
    Outcomes {
        ascii: bool,
    },
    /// The label sets of a universe that satisfy a question.
    Ask {
        question: &'a str,
        after: Option<&'a str>,
        limit: Option<NonZeroU64>,
        steps: Option<Steps>,
    },
    /// At which routes no label set of a universe ends.
    Dead,
    /// To which receivers no label set of a universe goes.
    Receivers,
    /// Why a label set goes where it goes. One word is its text; each of several words is one
    /// matcher.
    Explain {
        set: Vec<&'a str>,
    },
    /// The alerts of an export of which a question is true, or all of them.
    Alerts {
        question: Option<&'a str>,
    },
    /// A universe that stands for every alert, and keeps the labels of the universe file, if there
    /// is one. If `routes`, only the matchers of routes, questions and impossible lists count; if
    /// `open`, it is made even if some label is unproved.
    Universe {
        routes: bool,
        ascii: bool,
        open: bool,
        questions: Vec<&'a str>,
    },
    /// What a universe lacks to stand for every alert, for the same matchers.
    CheckUniverse {
        routes: bool,
        ascii: bool,
        questions: Vec<&'a str>,
    },
}

/// What the command of this name asks for. A flag that the command does not have is not set.
pub(crate) fn request_of<'a>(
    alloc: Global,
    name: &str,
    matches: &ArgMatches<'a>,
) -> Result<Option<Request<'a>>, AllocError> {
    let ascii = matches.get_flag("ascii");
    let question = matches.get_str("question");
    let request = match name {
        "lint" => Request::Lint { ascii },
        "where" => Request::Where {
            ascii,
            receivers: words_of(alloc, matches, "receiver")?,
        },
        "routes" => Request::Routes {
            ascii,
            receivers: words_of(alloc, matches, "receiver")?,
        },
        "compare" => Request::Compare { ascii },
        "outcomes" => Request::Outcomes { ascii },
        "ask" => ask_request(question.unwrap_or(""), matches),
        "dead" => Request::Dead,
        "receivers" => Request::Receivers,
        "explain" => Request::Explain {
            set: words_of(alloc, matches, "set")?,
        },
        "alerts" => Request::Alerts { question },
        "universe" => universe_request(words_of(alloc, matches, "question")?, matches),
        _ => return Ok(None),
    };
    Ok(Some(request))
}

/// The program itself, with which the help begins.
pub(crate) const PROGRAM: CommandRow = CommandRow {
    name: "amcover",
    about: "\
Shows where Alertmanager routes alerts, and what silences or inhibits them

Begin with your own alertmanager.yml:

  yq -o=json . alertmanager.yml > alertmanager.json  # Debian's yq: yq . alertmanager.yml
  amcover lint --config alertmanager.json",
    help: "\
Examples:

  amcover lint --config alertmanager.json
  amcover where --config alertmanager.json --rules rules.json
  amcover routes --config alertmanager.json --receiver db-pager
  amcover compare --old old.json --new alertmanager.json
  amcover explain --config alertmanager.json 'team=db,severity=warning'
  amcover alerts --config alertmanager.json --alerts alerts.json 'receiver db-pager'
  amcover outcomes --config alertmanager.json
  amcover universe --config alertmanager.json > u.json
  amcover ask --universe u.json --config alertmanager.json 'receiver db-pager'
  amcover dead --universe u.json --config alertmanager.json
  amcover receivers --universe u.json --config alertmanager.json

The file - is standard input, for one option of a command:

  yq -o=json . alertmanager.yml | amcover lint --config -

Each command has help on what it reads and prints, for example `amcover help lint`.",
    takes: &[],
};

/// The commands behind those of `REPORTS`, in the order of the help.
pub(crate) const COMMANDS: [CommandRow; 7] = [
    CommandRow {
        name: "explain",
        about: "Say where an alert goes, and what hides it",
        help: "\
Convert your alertmanager.yml to JSON, and ask about the labels of one alert:

  yq -o=json . alertmanager.yml > alertmanager.json  # Debian's yq: yq . alertmanager.yml
  amcover explain --config alertmanager.json 'team=db,severity=warning'

Write the labels as one word, a list of matchers: team=db,severity=warning. Or write each as
a word of its own, as in amtool config routes test: team=db severity=warning. They are in the
classic syntax of Alertmanager, each with =. The alert need not fire.

amtool exports the files of --silences and --alerts:

  amtool --alertmanager.url=http://localhost:9093 \\
    silence query -o json > silences.json
  amtool --alertmanager.url=http://localhost:9093 \\
    alert query -a -s -i -u -o json > alerts.json

Without -a -s -i -u amtool leaves out the silenced and the inhibited alerts, which still
inhibit others. Every alert of the file counts as firing, whatever --at says. Silences need
--at, the time that you ask about, such as 2024-05-01T10:00:00Z, or now:

  amcover explain --config alertmanager.json --silences silences.json \\
    --alerts alerts.json --at now 'team=db,severity=warning'

This prints the label set, and then the reasons, for example

  {severity=\"warning\",team=\"db\"}
  end /0 \"dba\"
  silenced 0
  inhibited 1 4

The route /0 handles the alert, and its receiver is dba. The first silence of the file hides
the alert. By the second rule, the fifth alert inhibits it: positions count from 0. There is
a line for each such route, for each such silence, and for each such rule with an alert. If
there is no line silenced or inhibited, no silence and no alert of these files hides the
alert. If you leave out a file, it hides nothing. explain ignores time intervals, which may
mute the alert too.

Exit status: 0 done, 1 refused input, 2 usage, 3 out of memory, 4 the output failed.",
        takes: &[
            (CONFIG, Need::Required),
            (SILENCES, Need::Optional),
            (ALERTS, Need::Optional),
            (AT, Need::Optional),
            (SET, Need::Required),
        ],
    },
    CommandRow {
        name: "alerts",
        about: "List the firing alerts for which a question is true",
        help: "\
Convert your alertmanager.yml to JSON, export the alerts that fire, and ask:

  yq -o=json . alertmanager.yml > alertmanager.json  # Debian's yq: yq . alertmanager.yml
  amtool --alertmanager.url=http://localhost:9093 \\
    alert query -a -s -i -u -o json > alerts.json
  amcover alerts --config alertmanager.json --alerts alerts.json 'receiver db-pager'

Every alert of the file counts as firing. Without -a -s -i -u amtool leaves out the silenced
and the inhibited ones, which still inhibit others. amtool exports the file of --silences too:

  amtool --alertmanager.url=http://localhost:9093 \\
    silence query -o json > silences.json

Silences need --at, the time that you ask about, such as 2024-05-01T10:00:00Z, or now.
Without --silences no alert is silenced.

alerts prints a line for each alert of the file for which the question is true, in the order
of the file, and then `# end`. `amcover ask --help` lists the questions. Without a question,
alerts asks `any`, which is true of every alert. For example,

  amcover alerts --config alertmanager.json --alerts alerts.json \\
    --silences silences.json --at now 'enters /0'

may print

  0 {alertname=\"PostgresDown\",team=\"db\"} -> \"db-pager\",\"incident-log\" silenced \"5a41\"
  3 {alertname=\"Slow\",team=\"db\"} -> \"db-mail\" inhibited 1/0
  # end

The first alert of the file goes to two receivers, in the order of the routes that handle
it. The silence with the identifier 5a41 hides it. The first alert inhibits the fourth one by
the second rule: positions count from 0. If a silence has no identifier in its file, its
position stands for it. If a line does not say silenced or inhibited, no silence and no alert
of these files hides the alert.

This prints the alerts of web-pager that no silence and no other alert hides now:

  amcover alerts --config alertmanager.json --alerts alerts.json \\
    --silences silences.json --at now \\
    'receiver web-pager and not silenced and not inhibited'

With the question `silenced or inhibited` it prints the alerts that are hidden, and with
`silenced` and a file with only one silence what that silence hides.

A line that ends in, say, intervals \"offhours\" names the time intervals of the routes that
handle the alert. alerts does not know whether they mute it at that time.

Exit status: 0 done, 1 refused input, 2 usage, 3 out of memory, 4 the output failed.",
        takes: &[
            (CONFIG, Need::Required),
            (ALERTS, Need::Required),
            (SILENCES, Need::Optional),
            (AT, Need::Optional),
            (JSON, Need::Optional),
            (ASKED_OF_ALERTS, Need::Optional),
        ],
    },
    CommandRow {
        name: "outcomes",
        about: "Show each list of receivers that some alert goes to",
        help: "\
Convert your alertmanager.yml to JSON, and list where alerts go:

  yq -o=json . alertmanager.yml > alertmanager.json  # Debian's yq: yq . alertmanager.yml
  amcover outcomes --config alertmanager.json

This prints a line for each list of receivers that some alert goes to, and then `# end`. For
example:

  \"default\" {}
  \"db-mail\" {team=\"db\"}
  \"db-pager\",\"incident-log\" {team=\"db\",severity=\"critical\"}
  # end

The receivers are in the order of the routes at which an alert ends. A receiver appears twice
if the alert ends at two routes that have it. The line ends with the first label set of such
an alert. Every alert counts: whatever its labels are, its receivers are one of these lists.

Keep the output beside the configuration. A review then shows which lists come and go:

  amcover outcomes --config alertmanager.json > outcomes.txt

To see which alerts go elsewhere, use `amcover compare`.

If some alerts never occur, say so in a universe file, such as never.json:

  {\"labels\": [], \"impossible\": [\"team=web,severity=critical\"]}

  amcover outcomes --config alertmanager.json --universe never.json

The file may declare labels too. Then each needs a value for every case that the matchers of
the routes tell apart. If one lacks such a value, outcomes refuses the file:

  amcover: universe: /labels/0: incomplete

amcover universe --from never.json --config alertmanager.json adds what a file lacks.

With --ascii, only alerts count whose values consist of printable ASCII, from the space to ~.
So an alert does not count if a value has a line feed, which . does not match. If a pattern
has \\b, use --ascii: without it, outcomes refuses the configuration as unproved.

outcomes ignores silences, inhibition and time intervals.

Exit status: 0 done, 1 refused input, 2 usage, 3 out of memory, 4 the output failed.",
        takes: &[
            (CONFIG, Need::Required),
            (IMPOSSIBLE, Need::Optional),
            (ASCII, Need::Optional),
            (JSON, Need::Optional),
        ],
    },
    CommandRow {
        name: "universe",
        about: "Make a universe that stands for every alert, or say what one lacks",
        help: "\
Convert your alertmanager.yml to JSON, and make a universe for it:

  yq -o=json . alertmanager.yml > alertmanager.json  # Debian's yq: yq . alertmanager.yml
  amcover universe --config alertmanager.json > u.json

This prints a universe file with a line for each label, for example

  {\"labels\": [
    {\"name\": \"team\", \"values\": [null, \"db\", \"web\"]},
    {\"name\": \"severity\", \"values\": [null, \"critical\", \"other\"]}
  ]}

null stands for a missing label. A class is all values of a label that the matchers cannot
tell apart. Each label that a matcher asks about has one value of each class. So whatever
labels an alert has, some label set of this universe ends at the same routes. If
`amcover dead` calls a route dead over this universe, no alert can end there.

The matchers are those of the routes and of the inhibition rules. With --silences, those of
the silences count too, whatever the time. With --alerts, the labels in `equal` count, with
the values of each alert that matches the source of the rule. amtool exports these files:

  amtool --alertmanager.url=http://localhost:9093 \\
    silence query -o json > silences.json
  amtool --alertmanager.url=http://localhost:9093 \\
    alert query -a -s -i -u -o json > alerts.json

If no matcher names a value of a class, --alerts decides which one stands for it: the one that
most of these alerts have. For `amcover dead` and `amcover receivers`, --routes is enough: it
counts only the matchers of routes, and the universe is smaller.

With --question, the matchers in the braces of a question of `amcover ask` count too. You
may repeat it:

  amcover universe --config alertmanager.json --question '{team=\"db\"}' > u.json

If a question has no answer over such a universe, it is true of no alert.

If some alerts never occur, say so in a universe file, such as never.json:

  {\"labels\": [], \"impossible\": [\"team=web,severity=critical\"]}

With --from, the universe keeps the labels of that file, their values and its impossible
lists, in their order. To these amcover adds what the file lacks:

  amcover universe --from never.json --config alertmanager.json > u.json

A value may have any character, even a line feed, which . does not match. So a route after
one with team=~\".*\" is live. With --ascii, only alerts count whose values consist of printable
ASCII, from the space to ~. The universe is then smaller, and is made faster. Use --ascii with
--check too, which then says that the universe lacks nothing.

For some patterns, amcover cannot find which values they tell apart: for those with \\b, for
example, unless --ascii is given. And no universe can declare some names, such as a:b. Then
amcover prints no universe, and says which route, rule, silence, question or list asks:

  amcover: config: /route/routes/0: unproved

With --open, amcover makes a universe all the same. Such a label then has the values that were
found, if any. Classes may be missing, so nothing is promised of that universe.

With --check, amcover makes no universe, and says what one lacks:

  amcover universe --check u.json --config alertmanager.json

This prints a line for each label of the universe, and then for each other label that a
matcher asks about. Then come the number of label sets, and `# complete` or `# incomplete`.
For example:

  team complete 3
  severity lacks absent
  service lacks \"basket\"
  rack unasked
  30 label sets
  # incomplete

After the name comes one of these:

  complete N              each of the N classes has a value
  lacks VALUE             no value is in the class of this one; absent is a missing label
  unasked                 nothing asks about it. It multiplies the label sets, and does no harm
  undeclarable            no universe can declare the name, and absence alone is not enough
  unproved PLACE POINTER  amcover could not find which values the matchers tell apart

With --alerts, `unseen` follows if none of these alerts has the label. The matchers of the
impossible lists of the universe count too. A label may lack a value that an impossible list
of this label alone rules out.

Exit status: 0 done, complete or not, 1 refused input, 2 usage, 3 out of memory, 4 the
output failed.",
        takes: &[
            (CHECK, Need::Optional),
            (FROM, Need::Without("universe")),
            (CONFIG, Need::Required),
            (COUNTED, Need::Optional),
            (ROUTES, Need::Optional),
            (ASCII, Need::Optional),
            (SILENCES, Need::Optional),
            (ALERTS, Need::Optional),
            (OPEN, Need::Without("universe")),
        ],
    },
    CommandRow {
        name: "ask",
        about: "List the label sets of a universe for which a question is true",
        help: "\
Convert your alertmanager.yml to JSON, make a universe for it, and ask:

  yq -o=json . alertmanager.yml > alertmanager.json  # Debian's yq: yq . alertmanager.yml
  amcover universe --config alertmanager.json > u.json
  amcover ask --universe u.json --config alertmanager.json 'receiver db-pager'

This prints the label sets of the alerts that go to the receiver db-pager.

The universe is a JSON file. It declares labels, and the values that each may have. null
stands for a missing label:

  {\"labels\": [
    {\"name\": \"team\", \"values\": [\"db\", \"web\", null]},
    {\"name\": \"severity\", \"values\": [\"critical\", \"warning\"]}
  ]}

Beside the labels, it may have lists of matchers that say which label sets never occur. ask
leaves out a label set that matches all matchers of one of these lists:

  \"impossible\": [\"team=web,severity=critical\"]

A label set has one of the values of each label. It stands for an alert with these labels,
and the configuration of --config says where this alert goes. Without --config there is one
route, /, and its receiver is called none. If ask refuses a file, it names the file and, as a
JSON Pointer, the part at fault.

amtool exports the file of --silences:

  amtool --alertmanager.url=http://localhost:9093 \\
    silence query -o json > silences.json

Silences need --at, the time that you ask about: a silence hides alerts from its start on,
and until its end. The time has a date, and Z or an offset from UTC, as in
2024-05-01T10:00:00Z and 2024-05-01T12:00:00+02:00. Now is

  --at \"$(date -u +%FT%T.%NZ)\"

ask refuses --at now, since the other pages of an answer are asked for at the same time.

amtool exports the file of --alerts too: the alerts that fire. Without -a -s -i -u it leaves
out the silenced and the inhibited ones, which still inhibit others:

  amtool --alertmanager.url=http://localhost:9093 \\
    alert query -a -s -i -u -o json > alerts.json

Every alert of that file counts as firing, whatever --at says. Without --silences no alert
is silenced, and without --alerts none is inhibited. ask ignores time intervals.

A question is one of these:

  receiver NAME    the alert goes to this receiver
                     receiver db-pager
  ends PATH        this route handles the alert, and none below it does
                     ends /2
  enters PATH      this route or one below it handles the alert
                     enters /2
  silenced         a silence hides the alert at the time of --at
                     silenced
  inhibited        an alert of --alerts inhibits the alert, by a rule of --config
                     inhibited
  any              every alert
                     any
  {MATCHERS}       the labels of the alert match all of these matchers
                     {team=\"db\",severity=~\"crit.*\"}
  not Q            the question Q is false
                     not enters /2
  Q and Q          both questions are true
                     enters /2 and not ends /2/0
  Q or Q           one of the questions is true, or both are
                     receiver db-pager or receiver web-pager
  (Q)              the question Q, as one part of another
                     not (ends /2 or ends /3)

`not` binds closest, then `and`, then `or`. In a shell, put the question between single
quotes.

A PATH names a route, and counts from 0: / is the top-level route, /2 is its third child, and
/2/0 is the first child of /2. A NAME may be in quotes. It needs quotes if it has whitespace,
a quote, a parenthesis or a { in it: receiver \"on call\".

The matchers are in the classic syntax of Alertmanager, with =, !=, =~ and !~. A pattern must
match the whole value. A missing label counts as the empty value.

ask prints a line for each label set for which the question is true, and then `# end`. The
lines are in declared order, in which the first label counts most. With the universe above as
u.json:

  amcover ask --universe u.json '{team=\"db\"}'

  {team=\"db\",severity=\"critical\"}
  {team=\"db\",severity=\"warning\"}
  # end

This prints the label sets that go to db-pager and that a silence hides now:

  amcover ask --universe u.json --config alertmanager.json \\
    --silences silences.json --at \"$(date -u +%FT%T.%NZ)\" \\
    'silenced and receiver db-pager'

And this prints those that go to db-pager and that no firing alert inhibits:

  amcover ask --universe u.json --config alertmanager.json --alerts alerts.json \\
    'receiver db-pager and not inhibited'

With --limit 1, ask prints only the first answer. If there are more, the last line has a
token:

  amcover ask --universe u.json --limit 1 '{team=\"db\"}'

  {team=\"db\",severity=\"critical\"}
  # next t2:05333def3ae3b054572609919ffa7605:0.0

To continue, run the same command with --after and that token. Without --limit it prints all
that is left. The 32 digits stand for the bytes of the files, the time and the question. If
one of them has changed, ask refuses the token.

  amcover ask --universe u.json --limit 1 \\
    --after t2:05333def3ae3b054572609919ffa7605:0.0 '{team=\"db\"}'

  {team=\"db\",severity=\"warning\"}
  # end

A search may take long to find an answer, or to see that none is left. --steps stops it. A
step looks once at the values of the first labels. It shows that all label sets with these
values are answers, that none is, or that the search must look at more labels. For example,
switches.json has seven labels a to g, each with the values 0 and 1:

  amcover ask --universe switches.json --steps 65 '{g=\"0\"}'

This prints 16 label sets, and then

  # stopped s2:f8767580b17370ba6de9d23d71956bec:0.1

The answer is complete up to there. To continue, run the same command with --after and that
token:

  amcover ask --universe switches.json --steps 65 \\
    --after s2:f8767580b17370ba6de9d23d71956bec:0.1 '{g=\"0\"}'

The output of one run is a page. It may stop before its first line although more answers
follow: continue until `# end`. With --steps 1000000 a page ends after at most a million
steps.

Exit status: 0 done, 1 refused input, 2 usage, 3 out of memory, 4 the output failed.",
        takes: &[
            (UNIVERSE, Need::Required),
            (CONFIG, Need::Optional),
            (SILENCES, Need::Optional),
            (ALERTS, Need::Optional),
            (AT_OF_ASK, Need::Optional),
            (LIMIT, Need::Optional),
            (STEPS, Need::Optional),
            (AFTER, Need::Optional),
            (ASKED, Need::Required),
        ],
    },
    CommandRow {
        name: "dead",
        about: "Say which routes are dead: no label set of a universe ends there",
        help: "\
Convert your alertmanager.yml to JSON, make a universe for its routes, and check them:

  yq -o=json . alertmanager.yml > alertmanager.json  # Debian's yq: yq . alertmanager.yml
  amcover universe --routes --config alertmanager.json > u.json
  amcover dead --universe u.json --config alertmanager.json

This prints a line for each route, a route before those below it, and then `# end`. For
example:

  / live {team=\"web\",severity=\"critical\"}
  /0 dead entered
  /0/0 live {team=\"db\",severity=\"critical\"}
  /1 dead never-entered
  # end

A path names a route, and counts from 0: / is the top-level route, /0 is its first child, and
/0/0 is the first child of /0. After the path comes one of these:

  live SET             the label set SET ends there. It is the first of the universe that does
  dead entered         none ends there, but some end below it: its children take every alert
                       that enters it
  dead never-entered   none ends there or below it. For example, earlier routes without
                       continue take all that it matches; or its matchers and those of its
                       parent are never true together; or they ask for a value that the
                       universe does not declare

The universe is a JSON file that declares labels and the values that each may have, as
`amcover ask --help` shows. Each of its label sets stands for the labels of an alert. A label
set ends at a route if that route handles the alert, and none below it does. dead ignores
silences, inhibition and time intervals.

A route is dead for this universe alone. An alert with other labels or values may end there,
unless the universe stands for every alert. `amcover universe` makes such a universe, and
`amcover universe --check` says what another one lacks. `amcover lint` needs no universe.

Labels that no route asks about cost no time, and neither do many label sets. A label set that
never occurs may keep a route live, unless the universe calls it impossible.

Exit status: 0 done, with dead routes or without, 1 refused input, 2 usage, 3 out of
memory, 4 the output failed.",
        takes: &[(UNIVERSE, Need::Required), (CONFIG, Need::Required)],
    },
    CommandRow {
        name: "receivers",
        about: "Say which receivers are unmatched: no label set of a universe goes there",
        help: "\
Convert your alertmanager.yml to JSON, make a universe for its routes, and check the receivers:

  yq -o=json . alertmanager.yml > alertmanager.json  # Debian's yq: yq . alertmanager.yml
  amcover universe --routes --config alertmanager.json > u.json
  amcover receivers --universe u.json --config alertmanager.json

This prints a line for each receiver, in the order of the configuration, and then `# end`.
For example:

  \"db-pager\" live {team=\"db\",severity=\"critical\"}
  \"db-mail\" unmatched
  # end

The label set is the first of the universe that goes to db-pager. None goes to db-mail: no
route has that receiver, or each route that has it is dead, as `amcover dead` shows.

The universe is a JSON file that declares labels and the values that each may have, as
`amcover ask --help` shows. Each of its label sets stands for the labels of an alert. The alert
goes to the receiver of each route that handles it, if no route below that one does. A route
that names no receiver has that of its parent. receivers ignores silences, inhibition and time
intervals.

A receiver is unmatched for this universe alone. An alert with other labels or values may go
there, unless the universe stands for every alert, as one of `amcover universe` does.
`amcover lint` needs no universe.

Exit status: 0 done, with unmatched receivers or without, 1 refused input, 2 usage, 3 out
of memory, 4 the output failed.",
        takes: &[(UNIVERSE, Need::Required), (CONFIG, Need::Required)],
    },
];
