//! The commands with which the help begins: what each takes, and its help text.

use crate::options::{
    ALERTS, ASCII, AT, CONFIG, CommandRow, IMPOSSIBLE, JSON, NEW, Need, OLD, RECEIVER, RULES,
    SILENCES,
};

/// These commands, in the order of the help. Those of `COMMANDS` follow.
pub(crate) const REPORTS: [CommandRow; 4] = [
    CommandRow {
        name: "lint",
        about: "Say what is wrong with a configuration, and why",
        help: "\
Convert your alertmanager.yml to JSON, and check it:

  yq -o=json . alertmanager.yml > alertmanager.json  # Debian's yq: yq . alertmanager.yml
  amcover lint --config alertmanager.json

This prints a line for each finding, and for each note a line that begins with note: first on
routes, then on receivers, then on inhibition rules. The last line counts them. For example:

  note /2 hands on: \"db-mail\" {team=\"db\"}: taken by /2/0 {env=\"prod\"}, /2/1 {env!=\"prod\"}
  /3/2 dead: \"web-chat\" {env!=\"prod\"}: taken by /1 {env!=\"prod\"} (and 2 routes below)
  receiver \"web-chat\" unmatched: /3/2 {env!=\"prod\"} dead
  rule 1 idle: no alert matches source {severity=\"critical\",severity=\"high\"}
  # 3 findings, 1 note

A path names a route, and counts from 0: / is the top-level route, /3 is its fourth child,
and /3/2 is the third child of /3. After the path come the kind of finding or note, the
receiver of the route, its matchers, and the reason. The kinds are:

  dead       a finding: no alert enters the route, whatever its labels are
  unusual    a finding: no ordinary alert enters the route, but some other alert does. The
             line shows the label set of such an alert
  hands on   a note: ordinary alerts enter the route, and its children take all of them
  undecided  a finding: it would take too long to find out whether an alert ends at the
             route. A receiver, a rule and a silence may be undecided too

An alert is ordinary if its values consist of printable ASCII, from the space to ~. So an
alert with a line feed in a value, which . does not match, is not ordinary. A dead route below
a dead one has no line, and neither has an unusual one below an unusual one. The line of the
topmost counts all routes below it.

The reason names routes. Together they are enough, and each of them is needed: without it,
the reason would not hold. For an unusual route, and for one that hands on, the reason speaks
only of ordinary alerts.

  excluded by ROUTES    no alert matches all of these. They are the route itself, or routes
                        above it
  taken by ROUTES       each alert that could enter the dead or unusual route matches one
                        of these first. They are siblings of the route, or of a route above
                        it; they come earlier, and have no continue. If a route hands on,
                        they are its children
  no alert is possible  the universe file calls all these alerts impossible

A receiver is unmatched if no alert goes to it, and unusual if some alert does, but no ordinary
one. The line names the routes that have the receiver, each with its kind, or says that there
are none. This is a finding, but a note if there are such routes and all of them hand on.

A rule is idle, a finding, if no alert inhibits another by it, whatever fires. Its number is
its position in inhibit_rules, from 0. The reason is one of these. The matchers that it
names are enough, and each of them is needed:

  no alert matches source MATCHERS, or target MATCHERS
  source MATCHERS and target MATCHERS exclude each other through equal
             if one alert matches the first and another the second, they differ in a label
             of equal
  each two alerts that match source and target match both sides
             and such alerts do not inhibit each other

The usual mistake is a source of critical alerts, a target of warnings, and severity in equal.

With --rules, findings say what no alert of your alerting rules reaches. The JSON has the form
that `amcover where --help` describes:

  amcover lint --config alertmanager.json --rules rules.json

  /3 unreached: \"db-pager\" {team=\"db\"}: no alert of the rules enters (and 8 routes below)
             a finding: whatever labels the series of the rules bring along, no alert enters
             the route. The same is said of receivers, and of the two sides of rules
  note /2/0 unseen: no rule has severity=\"critcal\", some have \"critical\"
             a matcher names a label, or asks for a value, that no rule sets, but some rule
             sets one that is most similar

With --silences and --at, lint also checks the silences, except those that are over at that
time. With --alerts, notes say what the alerts of that file show. Numbers of silences and of
alerts are positions in their files, from 0:

  amcover lint --config alertmanager.json --silences silences.json --at now \\
    --alerts alerts.json

  silence 3 idle: no alert matches {team=\"db\",team=\"web\"}
             a finding: it can hide no alert
  silence 4 all: every ordinary alert with an alertname matches {alertname=~\".+\"}
             a finding: it hides all of these
  note silence 5 unused: no alert of the file matches {team=\"ops\"}
             it is active, and hides none of the alerts of the file
  note silence 6 unproved: it is not known which alerts match {team=~\"\\\\bdb\"}
             a pattern is not followed, such as one with \\b without --ascii. A rule may be
             unproved too
  note /3 unreached: \"db-pager\" {team=\"db\"}: no alert of the file enters
             the same is said of receivers, and of the two sides of rules
  note rule 5 wide: alert 2 inhibits 23 of 40 others; both lack cluster
             by this rule, one alert inhibits at least 10 others, and at least half of them.
             Alerts that lack a label of equal do not differ in it
  note silence 1 hides all of \"net-pager\": 11 alerts
             it is active, and hides each alert of the file that goes to the receiver
  note /2/0 unseen: no alert has tema, some have team
             a matcher or equal names a label that no alert of the file has
  note /2/0 unseen: no alert has severity=\"critcal\", some have \"critical\"
             a matcher with = or =~ asks for a value, and no alert of the file has it, though
             some alert has the label. The line shows the most similar name or value, if at
             most two characters need to change

lint speaks of every alert that there can be, whatever its labels are. If some alerts never
occur, say so in a universe file, such as never.json:

  {\"labels\": [], \"impossible\": [\"team=web,severity=critical\"]}

  amcover lint --config alertmanager.json --universe never.json

The file may declare labels too. Then each needs a value for every case that the matchers of
the routes tell apart. If one lacks such a value, lint refuses the file:

  amcover: universe: /labels/0: incomplete

amcover universe --from never.json --config alertmanager.json adds what a file lacks.

With --ascii, only ordinary alerts count. A route that is unusual without --ascii is then
dead. If a pattern of a route has \\b, use --ascii: without it, lint refuses the configuration
as unproved.

lint ignores time intervals. Silences and inhibition do not change what it says of routes and
receivers, and firing alerts only add notes.

Exit status: 0 done without a finding, 1 refused input, 2 usage, 3 out of memory, 4 the
output failed, 5 done with a finding.",
        takes: &[
            (CONFIG, Need::Required),
            (RULES, Need::Optional),
            (SILENCES, Need::Optional),
            (ALERTS, Need::Optional),
            (AT, Need::Optional),
            (IMPOSSIBLE, Need::Optional),
            (ASCII, Need::Optional),
            (JSON, Need::Optional),
        ],
    },
    CommandRow {
        name: "where",
        about: "Show where the alerts of alerting rules go, by name",
        help: "\
Convert your alertmanager.yml and your rules files to JSON, and ask where the alerts go:

  yq -o=json . alertmanager.yml > alertmanager.json  # Debian's yq: yq . alertmanager.yml
  yq -o=json . rules.yml > rules.json                # Debian's yq: yq . rules.yml
  amcover where --config alertmanager.json --rules rules.json

This prints a line for each list of receivers that alerts of a rule go to, and then how many
rules there are. For example:

  \"node\" {alertname=\"DiskFull\",severity=\"warning\"} -> \"default\"
  \"node\" {alertname=\"DiskFull\",severity=\"warning\",team=\"db\"} -> \"db-mail\"
  \"db\" {alertname=\"PostgresDown\",severity=\"critical\",team=\"db\"} -> \"db-pager\"
  # 2 rules

A line begins with the group of the rule. Then comes an alert of the rule that goes to the
receivers behind the arrow: alertname, the labels that the rule sets, and further labels that
series may bring. It is the first of these alerts, and others may go there too. A rule has
several lines if its alerts go to several lists of receivers: here, some alerts of DiskFull go
to db-mail, such as one whose series has the label team=\"db\". If a rule has a line with a
receiver that you did not expect, such as the default one, look at its labels.

All alerts of a rule count. They have its name as alertname, and each label that the rule, or
else its group, sets to a text without {{. Each other label may be anything: series bring
labels, and so do templates such as {{ $labels.team }}. The expression of a rule is not read.
If it rules out some alerts, say so in a universe file, as below. External labels need
nothing, unless a rule sets one of them to the empty text. What alert_relabel_configs change
is not known.

To see only alerts that go to some receivers, name these. The last line then says how many
rules have such alerts:

  amcover where --config alertmanager.json --rules rules.json --receiver db-pager

With --silences and --at, a line ends in `silenced` if active silences hide all alerts of the
rule that go to these receivers, and in `partly silenced` if they hide some of them:

  amcover where --config alertmanager.json --rules rules.json --silences silences.json \\
    --at now

The JSON has the field groups of a rules file. Rules without alert are passed over. Several
files, the answer of Prometheus at /api/v1/rules, and a PrometheusRule of Kubernetes:

  yq -o=json eval-all '. as $file ireduce ({}; . *+ $file)' rules/*.yml > rules.json
  curl -s localhost:9090/api/v1/rules | jq '{groups: [.data.groups[] | {name, rules:
    [.rules[] | select(.type == \"alerting\") | {alert: .name, labels}]}]}' > rules.json
  kubectl get prometheusrule NAME -o json | jq .spec > rules.json

If some alerts never occur, say so in a universe file, such as never.json:

  {\"labels\": [], \"impossible\": [\"alertname=PostgresDown,env!=prod\"]}

  amcover where --config alertmanager.json --rules rules.json --universe never.json

With --ascii, only alerts count whose values consist of printable ASCII, from the space to ~.
So a rule that sets a label to another text has no alert that counts. If a pattern has \\b,
use --ascii: without it, where refuses the configuration as unproved.

where ignores inhibition and time intervals. A rule whose alerts are all impossible has a line
that ends in `no alert`.

Exit status: 0 done, 1 refused input, 2 usage, 3 out of memory, 4 the output failed.",
        takes: &[
            (CONFIG, Need::Required),
            (RULES, Need::Required),
            (RECEIVER, Need::Optional),
            (SILENCES, Need::Optional),
            (AT, Need::Optional),
            (IMPOSSIBLE, Need::Optional),
            (ASCII, Need::Optional),
            (JSON, Need::Optional),
        ],
    },
    CommandRow {
        name: "routes",
        about: "Show which alerts end at each route, by matchers",
        help: "\
Convert your alertmanager.yml to JSON, and ask which alerts reach a receiver:

  yq -o=json . alertmanager.yml > alertmanager.json  # Debian's yq: yq . alertmanager.yml
  amcover routes --config alertmanager.json --receiver db-pager

This prints a line for each route that has the receiver, and then `# end`. For example:

  /0 \"db-pager\" {severity=\"critical\",team=\"db\"} unless {env=\"dev\"} or {env=\"test\"}
  /3/1 \"db-pager\" {team=\"db-oncall\"}
  /7 \"db-pager\" no alert
  # end

A path names a route, and counts from 0: / is the top-level route, /3 is its fourth child,
and /3/1 the second child of that. Then comes the receiver of the route, and then which
alerts end there: those that match the first braces, and none of the lists behind `unless`.
This is exact for every alert, whatever its labels are. `no alert` means that none ends
there: amcover lint says why. So an alert goes to db-pager exactly if it meets one of these
lines. It may go to other receivers as well, if a route has `continue`.

The first braces have the matchers of the route and of those above it. The lists are those
of earlier siblings without `continue`, also of the routes above, and of children: they take
alerts away. What follows from other matchers is left out.

Without --receiver there is a line for each route. With several, there are those of each:

  amcover routes --config alertmanager.json
  amcover routes --config alertmanager.json --receiver db-pager --receiver db-mail

If some alerts never occur, say so in a universe file, such as never.json:

  {\"labels\": [], \"impossible\": [\"team=web,severity=critical\"]}

  amcover routes --config alertmanager.json --universe never.json

The file may declare labels too. Then each needs a value for every case that the matchers of
the routes tell apart: amcover universe --from never.json --config alertmanager.json adds what
it lacks.

With --ascii, only alerts count whose values consist of printable ASCII, from the space to ~.
If a pattern has \\b, use --ascii: without it, routes refuses the configuration as unproved.

routes ignores silences, inhibition and time intervals.

Exit status: 0 done, 1 refused input, 2 usage, 3 out of memory, 4 the output failed.",
        takes: &[
            (CONFIG, Need::Required),
            (RECEIVER, Need::Optional),
            (IMPOSSIBLE, Need::Optional),
            (ASCII, Need::Optional),
            (JSON, Need::Optional),
        ],
    },
    CommandRow {
        name: "compare",
        about: "Say what a change does to alerts, and what else differs",
        help: "\
In a merge request, compare your alertmanager.yml with that of the main branch:

  git show origin/main:alertmanager.yml > old.yml
  yq -o=json . old.yml > old.json                    # Debian's yq: yq . old.yml
  yq -o=json . alertmanager.yml > alertmanager.json  # Debian's yq: yq . alertmanager.yml
  amcover compare --old old.json --new alertmanager.json

The exit status is 0 if nothing changes, and 5 if something does. With any other status there
is no answer. The last line counts the changes. For example:

  \"db-mail\" loses alerts such as {team=\"web\"}
  \"incident-log\" gains alerts such as {team=\"web\",severity=\"critical\"}
  \"db-mail\" -> \"web-pager\" {team=\"web\"}
  \"web-pager\" -> \"web-pager\",\"incident-log\" {team=\"web\",severity=\"critical\"}
  \"db-pager\" other repeat_interval {team=\"db\"}
  receiver \"web-pager\" differs
  rule only in old: source {severity=\"critical\"} target {severity=\"warning\"}
  # 5 changes, 1 receiver loses alerts, 1 gains

First come the receivers that lose alerts, and those that gain some. Before an arrow are the
receivers of an alert under the old configuration, and after it those under the new one, in
the order of the routes at which the alert ends. Behind `other` are the options of these
routes that differ: how they group and time alerts, and when they mute them. A line ends with
the first label set of such an alert, and stands for all alerts of which the same is true.

Last come the receivers, inhibition rules, time intervals and other fields that differ in the
files, or are in only one of them. If there is no line, each alert goes to the same receivers
as before, by routes with the same options, and all else in the files is the same. It does
not matter how routes and matchers are written, or in which order receivers and rules stand.

With --rules, only the alerts of your alerting rules count, and the lines name them. The JSON
has the form that `amcover where --help` describes:

  amcover compare --old old.json --new alertmanager.json --rules rules.json

  \"db\" {alertname=\"PostgresDown\",team=\"db\"}: \"db-pager\" -> \"web-pager\"

The line begins with the group of the rule, and a label set of an alert of the rule that moves.
Then 0 changes means that each alert of the rules goes to the same receivers as before.

If some alerts never occur, say so in a universe file, such as never.json:

  {\"labels\": [], \"impossible\": [\"team=web,severity=critical\"]}

  amcover compare --old old.json --new alertmanager.json --universe never.json

The file may declare labels too. Then each needs a value for every case that the matchers of
the routes of both files tell apart. If one lacks such a value, compare refuses the file:

  amcover: universe: /labels/0: incomplete

With --ascii, only alerts count whose values consist of printable ASCII, from the space to ~.
So an alert does not count if a value has a line feed, which . does not match. If a pattern
has \\b, use --ascii: without it, compare refuses the configuration as unproved.

A refusal names the file at fault as old or new:

  amcover: old: /route/receiver: undefined-receiver

Exit status: 0 done without a change, 1 refused input, 2 usage, 3 out of memory, 4 the
output failed, 5 done with a change.",
        takes: &[
            (OLD, Need::Required),
            (NEW, Need::Required),
            (RULES, Need::Optional),
            (IMPOSSIBLE, Need::Optional),
            (ASCII, Need::Optional),
            (JSON, Need::Optional),
        ],
    },
];
