ghost use Rattle.std.specs.Prelude.{◌≡◌, IfOk, map, false};
ghost use Rattle.clap.specs.Simple.{app_of, shape_of};
ghost use Rattle.clap.specs.Walk.{rule_of};
ghost use Rattle.clap.specs.declared.builder.command.Command.TheViews.{out-Command};
ghost use Rattle.kapi_command_line.specs.CommandLine.{askers, kapi, machines, others};
ghost use Rattle.kapi_command_line.specs.Private.Table.{rule_by, shape_by, with_rules, with_shapes};

use crate::command_line::PORTS;
use clap::{Arg, ArgAction, Command};
use kapi_text::Memory;
use std::alloc::Global;

/// The version that `--version` prints.
const VERSION: &str = "0.1.0";

/// How often an argument is given, and with what.
#[derive(Clone, Copy)]
pub enum Kind {
    /// `--NAME`, which has no value.
    Flag,
    /// `--NAME VALUE`, which may be left out.
    Once,
    /// `--NAME VALUE`, which may be given again and again.
    Often,
    /// A word that must be there.
    Word,
    /// A word that may be left out.
    Maybe,
    /// Words that may be left out.
    Any,
    /// Words, one or more.
    Some,
    /// Words, 1 to 16.
    Few,
}

#[derive(Clone, Copy)]
pub struct Argument {
    kind: Kind,
    name: &'static str,
    /// The name of its value, if help shows another than the argument's.
    value: &'static str,
    help: &'static str,
}

/// A row of the table: the kind of an argument, its name, the name of its value if it has one, and its help.
macro_rules! argument {
    ($kind:ident $name:literal $help:literal) => { argument!($kind $name "" $help) };
    ($kind:ident $name:literal $value:literal $help:literal) => {
        Argument { kind: Kind::$kind, name: $name, value: $value, help: $help }
    };
}

/// A subcommand: its name, what its help says before and below its arguments, those that it shares with others, and its
/// own.
pub struct Subcommand {
    name: &'static str,
    about: &'static str,
    forms: &'static str,
    shared: &'static [Argument],
    own: &'static [Argument],
}

/// The command line that `kapi` takes.
pub fn program<'a>(alloc: Global) -> Result<Command<'a>, Memory>
    ensures { IfOk result (λ c. app_of c ≡ kapi) }
{
    let program = Command::new(alloc, "kapi")
        .about("An API server for declared objects with role-based access control")
        .version(VERSION)
        .subcommand_required(true);
    with_others(alloc, with_askers(alloc, with_machines(alloc, program)?)?)
}

fn with_machines<'a>(alloc: Global, program: Command<'a>) -> Result<Command<'a>, Memory>
    ensures { IfOk result (λ c. app_of c ≡ with_shapes (app_of program.entry) machines) }
{
    with_subcommands(alloc, program, &MACHINES)
}

fn with_askers<'a>(alloc: Global, program: Command<'a>) -> Result<Command<'a>, Memory>
    ensures { IfOk result (λ c. app_of c ≡ with_shapes (app_of program.entry) askers) }
{
    with_subcommands(alloc, program, &ASKERS)
}

fn with_others<'a>(alloc: Global, program: Command<'a>) -> Result<Command<'a>, Memory>
    ensures { IfOk result (λ c. app_of c ≡ with_shapes (app_of program.entry) others) }
{
    with_subcommands(alloc, program, &OTHERS)
}

/// The program with these subcommands too.
fn with_subcommands<'a>(
    alloc: Global,
    program: Command<'a>,
    subcommands: &[Subcommand],
) -> Result<Command<'a>, Memory>
    ensures { IfOk result (λ c. app_of c ≡ with_shapes (app_of program.entry) (map shape_by subcommands.now)) }
{
    let mut program = program;
    for subcommand in subcommands {
        program = program.subcommand(command(alloc, subcommand)?)?;
    }
    Ok(program)
}

fn command<'a>(alloc: Global, subcommand: &Subcommand) -> Result<Command<'a>, Memory>
    ensures shape { IfOk result (λ c. shape_of c ≡ shape_by subcommand.now) }
    ensures local { IfOk result (λ c. (out-Command c).has_globals ≡ false) }
{
    let command = Command::new(alloc, subcommand.name)
        .about(subcommand.about)
        .after_help(subcommand.forms);
    let command = with_arguments(alloc, command, subcommand.shared)?;
    with_arguments(alloc, command, subcommand.own)
}

fn with_arguments<'a>(
    alloc: Global,
    command: Command<'a>,
    arguments: &[Argument],
) -> Result<Command<'a>, Memory>
    requires { (out-Command command).has_globals ≡ false }
    ensures shape { IfOk result (λ c. app_of c ≡ with_rules (app_of command.entry) (map rule_by arguments.now)) }
    ensures local { IfOk result (λ c. (out-Command c).has_globals ≡ false) }
{
    let mut command = command;
    for argument in arguments {
        command = command.arg(arg(alloc, argument))?;
    }
    Ok(command)
}

fn arg<'a>(alloc: Global, argument: &Argument) -> Arg<'a>
    ensures rule { rule_of result ≡ rule_by argument.now }
    ensures local { result.global ≡ false }
{
    let (name, value) = (argument.name, argument.value);
    let arg = Arg::new(alloc, name).help(argument.help);
    match argument.kind {
        Kind::Flag => arg.long(name).action(ArgAction::SetTrue),
        Kind::Once => arg.long(name).value_name(value),
        Kind::Often => arg.long(name).value_name(value).action(ArgAction::Append),
        Kind::Word => arg.required(true),
        Kind::Maybe => arg,
        Kind::Any => arg.num_args(1..),
        Kind::Some => arg.required(true).num_args(1..),
        Kind::Few => arg.value_name(value).required(true).num_args(1..=PORTS),
    }
}

// ---- arguments that several subcommands have

const WITH: Argument =
    argument!(Often "with" "FILE" "A file or folder read with each policy; repeatable");

const DEFAULTS: Argument =
    argument!(Flag "with-defaults" "Adds Kubernetes' roles admin, edit and view");

const NAMESPACE: Argument =
    argument!(Once "namespace" "NS" "Of objects that name none; of a question");

const STRICT: Argument = argument!(Flag "strict" "Status 1 if there is a doubt about a policy");

const JSON: Argument = argument!(Flag "json" "Prints a JSON object a line");

const FORMAT: Argument = argument!(Once "format" "FORM" "What is printed: table, markdown or json");

const KINDS: Argument = argument!(Often "kinds" "FILE" "More kinds: a file, or the set kubernetes");

const READERS: Argument =
    argument!(Once "readers" "N" "Threads that answer, 1 to 16; 2 if left out");

const POLICY: Argument = argument!(Word "POLICY" "The objects of the policy");

/// How a policy of manifests is read.
const READING: [Argument; 4] = [WITH, DEFAULTS, NAMESPACE, STRICT];

/// How a policy is read, and what is printed.
const ASKING: [Argument; 6] = [WITH, DEFAULTS, NAMESPACE, STRICT, JSON, FORMAT];

/// The subcommands that run a machine.
const MACHINES: [Subcommand; 4] = [
    Subcommand {
        name: "script",
        about: "Plays the events on standard input and prints their answers",
        forms: SCRIPT_FORMS,
        shared: &[],
        own: &[KINDS],
    },
    Subcommand {
        name: "audit",
        about: "Answers the questions of a file by the roles and bindings of another",
        forms: AUDIT_FORMS,
        shared: &READING,
        own: &[
            KINDS,
            POLICY,
            argument!(Word "QUESTIONS" "The questions"),
            READERS,
            argument!(Flag "manifests" "POLICY is manifests, in any order, and not lines"),
            argument!(Flag "log" "QUESTIONS is a cluster's audit log"),
            JSON,
            FORMAT,
        ],
    },
    Subcommand {
        name: "serve",
        about: "Serves requests on ports of this machine",
        forms: SERVE_FORMS,
        shared: &[],
        own: &[
            KINDS,
            argument!(Often "manifests" "FILE" "Manifests of the first objects; repeatable"),
            DEFAULTS,
            NAMESPACE,
            argument!(Flag "free-ports" "Prints a free port if PORT is 0"),
            argument!(Once "load" "FILE" "The first objects, one a line"),
            argument!(Once "first-revision" "N|clock" "Revisions begin after it; 0 if left out"),
            argument!(Flag "recheck-watches" "Checks rights of watches at each event"),
            argument!(Once "answer" "PORT" "A port on which questions are answered"),
            READERS,
            argument!(Few "LISTEN" "PORT=USER[,GROUP..]" "A port and who its clients are, 1 to 16 times"),
        ],
    },
    Subcommand {
        name: "replay",
        about: "Runs policy tests and prints each answer that is not as expected",
        forms: REPLAY_FORMS,
        shared: &[],
        own: &[
            argument!(Flag "write" "Prints the transcripts with the answers that came"),
            argument!(Flag "strict" "Status 1 if 403 is wanted of an unserved resource"),
            argument!(Once "junit" "FILE" "A file for the outcomes as JUnit XML"),
            argument!(Some "FILE" "The transcripts"),
        ],
    },
];

/// The subcommands that answer questions about a policy.
const ASKERS: [Subcommand; 4] = [
    Subcommand {
        name: "compare",
        about: "Prints what a policy allows to whom that another did not",
        forms: COMPARE_FORMS,
        shared: &ASKING,
        own: &[
            argument!(Flag "usual-groups" "Subjects have the groups of authentication"),
            argument!(Flag "atoms" "A line for each permission, and not each rule"),
            argument!(Flag "lost" "Prints what BEFORE allows that AFTER does not"),
            argument!(Word "BEFORE" "The objects of the policy that was"),
            argument!(Word "AFTER" "The objects of the policy that is to be"),
        ],
    },
    Subcommand {
        name: "who",
        about: "Prints who may do something by a policy",
        forms: WHO_FORMS,
        shared: &ASKING,
        own: &[
            argument!(Once "name" "NAME" "The name of the object that is asked about"),
            argument!(Once "questions" "FILE" "Questions, in place of VERB and RESOURCE"),
            argument!(Flag "cluster" "Asks about the whole cluster alone"),
            POLICY,
            argument!(Maybe "VERB" "The verb that is asked about, as get"),
            argument!(Maybe "RESOURCE" "The resource that is asked about, as pods"),
        ],
    },
    Subcommand {
        name: "what",
        about: "Prints what a user has by a policy, and by what",
        forms: WHAT_FORMS,
        shared: &ASKING,
        own: &[
            POLICY,
            argument!(Word "USER" "The user that is asked about"),
            argument!(Any "GROUP" "Groups that the user is in besides its own"),
        ],
    },
    Subcommand {
        name: "risks",
        about: "Prints who can escalate, bind or impersonate by a policy",
        forms: RISKS_FORMS,
        shared: &ASKING,
        own: &[POLICY],
    },
];

/// The subcommands that look through a policy.
const OTHERS: [Subcommand; 3] = [
    Subcommand {
        name: "paths",
        about: "Prints who can become whom in a cluster with a policy",
        forms: PATHS_FORMS,
        shared: &ASKING,
        own: &[
            argument!(Once "to" "WHOM" "Whom the paths lead to"),
            argument!(Often "without" "KIND" "A kind of rights to leave out; repeatable"),
            POLICY,
        ],
    },
    Subcommand {
        name: "check",
        about: "Prints what dangles in a policy",
        forms: CHECK_FORMS,
        shared: &ASKING,
        own: &[KINDS, POLICY],
    },
    Subcommand {
        name: "suggest",
        about: "Prints the least roles for what was used",
        forms: SUGGEST_FORMS,
        shared: &READING,
        own: &[
            argument!(Flag "log" "USES is a cluster's audit log"),
            argument!(Once "policy" "POLICY" "The policy that may allow the uses"),
            argument!(Flag "list" "Prints one List, and not an object a line"),
            argument!(Word "USES" "What was used"),
        ],
    },
];

/// What `kapi script --help` shows below the options.
const SCRIPT_FORMS: &str =
    r#"One event a line, and one line answers each. Empty lines and lines that begin
with # are skipped.

  open ann,dev  opens a connection of the user ann in the group dev.
                Answer: conn 0, its number; the next is 1
  feed 0 TEXT   bytes come in on connection 0. Answer: ok.
                In TEXT \r\n ends a line, and \\ is a backslash
  serve 0       answers the next whole request of connection 0.
                Answer: out and the reply, or none
  pump 0        shows the next event of the watch of connection 0.
                Answer: out and the event, or none
  turn          fills the next aggregated cluster role that waits for it.
                Answer: turn REVISION NAME, or none
  close 0       closes connection 0. Answer: ok

'last' in place of 'out' means that the connection has ended, 'error ..' that
an event was refused.

Example:
  printf '%s\n' 'open root,system:masters' \
    'feed 0 GET /healthz HTTP/1.1\r\nHost: a\r\n\r\n' 'serve 0' |
    kapi script | cut -c 1-72

It prints
  conn 0
  ok
  out HTTP/1.1 200 OK\r\nContent-Type: text/plain\r\nContent-Length: 2\r\n

Status 0 at the end of the script, 1 at a line that is no event. docs/PROFILE.md
has each rule of scripts. docs/REPLAY.md shows transcripts, a shorter form."#;

/// What `kapi audit --help` shows below the arguments.
const AUDIT_FORMS: &str =
    r#"Each file has one JSON object a line. Empty lines and lines that begin with #
are skipped. The first line is 1. With --manifests POLICY is a file, a folder
or - of manifests, in any order.

POLICY: objects as a cluster gives them, namespaces first.
QUESTIONS: each the spec of a SubjectAccessReview; with --log the events of a
cluster's audit log. Then only answers that differ from the log's are printed,
and a table of what would be refused.

One line answers each question: 'denied', 'allowed group system:masters', or
'allowed', a binding, a role and the index of its rule.

Example:
  cat > policy.json <<'END'
  {"apiVersion":"rbac.authorization.k8s.io/v1","kind":"Role",
   "metadata":{"name":"reader","namespace":"default"},
   "rules":[{"apiGroups":[""],"resources":["secrets"],"verbs":["get"]}]}
  {"apiVersion":"rbac.authorization.k8s.io/v1","kind":"RoleBinding",
   "metadata":{"name":"readers","namespace":"default"},
   "roleRef":{"kind":"Role","name":"reader"},
   "subjects":[{"kind":"User","name":"ann"}]}
  END
  printf '%s%s\n' '{"user":"ann","resourceAttributes":{"verb":"get",' \
    '"resource":"secrets","namespace":"default"}}' > questions.jsonl
  kapi audit --manifests policy.json questions.jsonl

It prints
  allowed RoleBinding readers, Role reader, rule 0

docs/AUDIT.md shows how to take a policy out of a cluster."#;

/// What `kapi serve --help` shows below the arguments.
const SERVE_FORMS: &str =
    r#"Each port is on 127.0.0.1. Each of its clients is the user that its word names,
in the groups behind it.

--load FILE: one JSON object a line, namespaces first. Empty lines and lines
that begin with # are skipped. The first line is 1.

--recheck-watches: a watch ends with a 403 once the roles and bindings do not
allow it any more. Else its rights are checked when it starts, and then no more.

--first-revision N: revisions begin after N, at most 281474976710650. 'clock' is
100 for each millisecond since 1970, above every revision of an earlier start,
so clients that watched before a restart list anew instead of missing changes.

--answer PORT: threads answer questions while the server goes on, each line the
spec of a SubjectAccessReview, as for kapi audit. In front of each answer is the
number of changes of the policy that it follows.

Example:
  kapi serve 8001=root,system:masters 8002=ann,dev & sleep 1
  curl -s 127.0.0.1:8001/api/v1/namespaces/default/configmaps \
    -H 'Content-Type: application/json' \
    -d '{"metadata":{"name":"a"},"data":{"k":"v"}}'
  curl -s 127.0.0.1:8002/api/v1/namespaces/default/configmaps/a
  kill $!

The server prints a line for each port. The last answer is a refusal, as ann has
no role. docs/USING.md leads through a server with roles."#;

/// What `kapi replay --help` shows below the arguments.
const REPLAY_FORMS: &str =
    r#"A transcript has a request, an event or a wanted answer a line. Empty lines and
lines that begin with # are skipped.

  as ann,visitors     the connection of that user and groups
  GET /api/v1/pods    a request; POST, PUT and PATCH have a body behind the
                      target, header fields are the lines below
  = 403 TEXT          the reply has this code, and this text in it
  == {"kind":..}      the reply has exactly this body
  pump                the next event of the connection's watch
  ~ "type":"ADDED"    the answer has this text in it
  turn                any line of kapi script
  > turn 8 monitors   the answer is exactly this line
  begin               a new machine
  load FILE           a new machine with the objects of a file, as of
                      kapi serve --load
  manifests FILE      a new machine with manifests, as of kapi serve --manifests
  load defaults       beside manifests: with the roles view, edit and admin
  kinds FILE          the kinds of FILE are served too in this case
  recheck             rights of watches are checked anew in this case

Example:
  cat > policy.json <<'END'
  {"apiVersion":"rbac.authorization.k8s.io/v1","kind":"Role",
   "metadata":{"name":"reader","namespace":"default"},
   "rules":[{"apiGroups":[""],"resources":["secrets"],"verbs":["get"]}]}
  {"apiVersion":"rbac.authorization.k8s.io/v1","kind":"RoleBinding",
   "metadata":{"name":"readers","namespace":"default"},
   "roleRef":{"kind":"Role","name":"reader"},
   "subjects":[{"kind":"User","name":"ann"}]}
  END
  cat > support.txt <<'END'
  manifests policy.json
  as ann
  GET /api/v1/namespaces/default/secrets/token
  = 404
  DELETE /api/v1/namespaces/default/secrets/token
  = 403 ["delete","","secrets","","token"]
  END
  kapi replay support.txt

It prints
  support.txt: 2 checks

Status 0 if there is an answer to check and each is as wanted, else 1. A FILE is
relative to the transcript's folder. docs/REPLAY.md has every line."#;

/// What `kapi compare --help` shows below the arguments.
const COMPARE_FORMS: &str =
    r#"BEFORE and AFTER are manifests in JSON, as 'kubectl get -o json' prints them:
a file, a folder of *.json and *.jsonl, or -, standard input. Objects that say
nothing about policy are counted and passed over.

Each line names a user or group that gains, the namespace (* is all of them),
what is gained, and the binding, role and rule that give it. Lines with ! come
first: they give everything, roles, impersonation or Secrets.

A user is looked at without groups, a group alone. With --usual-groups all are
in system:authenticated, service accounts in their two groups besides, and the
anonymous user in system:unauthenticated alone.

Example:
  cat > before.json <<'END'
  {"apiVersion":"rbac.authorization.k8s.io/v1","kind":"Role",
   "metadata":{"name":"reader","namespace":"default"},
   "rules":[{"apiGroups":[""],"resources":["secrets"],"verbs":["get"]}]}
  END
  cp before.json after.json
  cat > more.json <<'END'
  {"apiVersion":"rbac.authorization.k8s.io/v1","kind":"RoleBinding",
   "metadata":{"name":"readers","namespace":"default"},
   "roleRef":{"kind":"Role","name":"reader"},
   "subjects":[{"kind":"User","name":"ann"}]}
  END
  cat more.json >> after.json
  kapi compare before.json after.json | tr -s ' '

It prints
  SUBJECT NAMESPACE GAINS BY
  User ann default ! get secrets RoleBinding readers, Role reader, rule 0

Status 0 if nobody gains, 3 if somebody does, 4 if aggregated roles of a policy
still change, and 1 if a file is not loaded, has neither role nor binding, or,
with --strict, if a binding's role is not in the policy."#;

/// What `kapi who --help` shows below the arguments.
const WHO_FORMS: &str =
    r#"POLICY is manifests in JSON, as 'kubectl get -o json' prints them: a file, a
folder of *.json and *.jsonl, or -, standard input. Objects that say nothing
about policy are counted and passed over.

RESOURCE: pods, pods/log, deployments.apps, a short name as po or deploy, or a
path that begins with a slash. Without --namespace and --cluster the question is
about each namespace and the whole cluster: a line for each scope.

--questions: a file of questions, each a line VERB RESOURCE [NAMESPACE [NAME]].
The namespace * is the whole cluster, and so is none.

Example:
  cat > policy.json <<'END'
  {"apiVersion":"rbac.authorization.k8s.io/v1","kind":"Role",
   "metadata":{"name":"reader","namespace":"default"},
   "rules":[{"apiGroups":[""],"resources":["secrets"],"verbs":["get"]}]}
  {"apiVersion":"rbac.authorization.k8s.io/v1","kind":"RoleBinding",
   "metadata":{"name":"readers","namespace":"default"},
   "roleRef":{"kind":"Role","name":"reader"},
   "subjects":[{"kind":"User","name":"ann"}]}
  END
  kapi who policy.json get secrets | grep ann | tr -s ' '

It prints
  User ann default RoleBinding readers Role reader, rule 0"#;

/// What `kapi what --help` shows below the arguments.
const WHAT_FORMS: &str =
    r#"POLICY is manifests in JSON, as 'kubectl get -o json' prints them: a file, a
folder of *.json and *.jsonl, or -, standard input. Objects that say nothing
about policy are counted and passed over.

USER is asked about in the groups that are named and in those of authentication:
system:authenticated, and a service account's own two. The anonymous user has
system:unauthenticated alone.

Each line is a rule, its scope (* is the whole cluster), and the bindings and
roles that give it. --namespace NS: only what counts in NS.

Example:
  cat > policy.json <<'END'
  {"apiVersion":"rbac.authorization.k8s.io/v1","kind":"Role",
   "metadata":{"name":"reader","namespace":"default"},
   "rules":[{"apiGroups":[""],"resources":["secrets"],"verbs":["get"]}]}
  {"apiVersion":"rbac.authorization.k8s.io/v1","kind":"RoleBinding",
   "metadata":{"name":"readers","namespace":"default"},
   "roleRef":{"kind":"Role","name":"reader"},
   "subjects":[{"kind":"User","name":"ann"}]}
  END
  kapi what policy.json ann | tail -n 1 | tr -s ' '

It prints
  get secrets - default RoleBinding readers, Role reader, rule 0"#;

/// What `kapi risks --help` shows below the arguments.
const RISKS_FORMS: &str =
    r#"POLICY is manifests in JSON, as 'kubectl get -o json' prints them: a file, a
folder of *.json and *.jsonl, or -, standard input. Objects that say nothing
about policy are counted and passed over.

Each line is a user or group that may escalate or bind roles or impersonate, the
namespace (* is all of them), and the binding, role and rule that give it. The
last line says what holds of all others.

Example:
  cat > policy.json <<'END'
  {"apiVersion":"rbac.authorization.k8s.io/v1","kind":"ClusterRoleBinding",
   "metadata":{"name":"admins"},
   "roleRef":{"kind":"ClusterRole","name":"cluster-admin"},
   "subjects":[{"kind":"User","name":"olga"}]}
  END
  kapi risks policy.json | grep olga | tr -s ' '

It prints
  User olga * ClusterRoleBinding admins ClusterRole cluster-admin, rule 0"#;

/// What `kapi paths --help` shows below the arguments.
const PATHS_FORMS: &str =
    r#"POLICY is manifests in JSON, as 'kubectl get -o json' prints them: a file, a
folder of *.json and *.jsonl, or -, standard input. Objects that say nothing
about policy are counted and passed over.

Each line is a subject of a binding and whom it can become: everything, or else
each user, group, account or namespace that it reaches. Below is a shortest
path, a right a line. Each step takes one right, even if a cluster asks for two.

--to WHOM: only paths to WHOM, as it is printed, and to everything.
--without KIND: leaves out rights of a kind, as clusters differ: star, secrets,
workloads, changes, exec, volumes, nodes, escalate, bind, impersonate, tokens,
signers, webhooks or namespaces.

Example:
  cat > policy.json <<'END'
  {"apiVersion":"rbac.authorization.k8s.io/v1","kind":"ClusterRoleBinding",
   "metadata":{"name":"admins"},
   "roleRef":{"kind":"ClusterRole","name":"cluster-admin"},
   "subjects":[{"kind":"User","name":"olga"}]}
  END
  kapi paths policy.json | head -n 1

It prints
  User olga -> everything"#;

/// What `kapi check --help` shows below the arguments.
const CHECK_FORMS: &str =
    r#"POLICY is manifests in JSON, as 'kubectl get -o json' prints them: a file, a
folder of *.json and *.jsonl, or -, standard input. Objects that say nothing
about policy are counted and passed over.

Each line names a file, a line and what dangles there: a binding whose role is
not there, a role that nothing binds, a service account that is not there (if
the files have any), a rule that another of its role covers, or a resource that
no kind of Kubernetes serves.

Example:
  cat > policy.json <<'END'
  {"apiVersion":"rbac.authorization.k8s.io/v1","kind":"ClusterRoleBinding",
   "metadata":{"name":"admins"},
   "roleRef":{"kind":"ClusterRole","name":"admin"},
   "subjects":[{"kind":"User","name":"olga"}]}
  END
  kapi check policy.json | tail -n 1 | cut -c 1-76

It prints
  policy.json:1  ClusterRoleBinding admins: ClusterRole admin is not in the po

Status 0 if nothing dangles, 3 if something does."#;

/// What `kapi suggest --help` shows below the arguments.
const SUGGEST_FORMS: &str = r#"USES: questions as of kapi audit, each a line with the spec of a
SubjectAccessReview; with --log the events of a cluster's audit log.
It prints roles and bindings that allow each use to its user, and no more than
any policy that does.

With --policy POLICY, uses that POLICY denies are left out and counted, and the
rules of it that no use needs are listed on standard error.

Example:
  printf '%s%s\n' '{"user":"ann","resourceAttributes":{"verb":"get",' \
    '"resource":"pods","namespace":"shop"}}' > uses.jsonl
  kapi suggest uses.jsonl | grep -o '"name":"suggested-1","name[^}]*'

It prints
  "name":"suggested-1","namespace":"shop"
  "name":"suggested-1","namespace":"shop"

The first object is a Role, the second the RoleBinding that gives it to ann."#;
