//! The texts at the ends of help: what the files of a command hold, and the exit statuses.

/// The number of this version, and the logic that its proofs are checked with.
pub(crate) const VERSION: &str = "1.0.0 (rattle, logic dac8208d650f15bf)";

pub(crate) const PROGRAM: &str = "\
`telegate COMMAND --help` says what the files of a command hold.
Exit status: 0 done, 1 a bad frame or a file with wrong content, 2 usage, 3 a file or a device
failed, 4 no memory. A fault is one line on standard error, the last one. Before that of a file
lines `FILE:LINE:COLUMN: WHY` say where it is.";

pub(crate) const CHECK: &str = "\
Printed: `ok`. The last line on standard error is the first fault that there is; lines before it,
`FILE:LINE:COLUMN: WHY`, have each fault. With --site the file of the site is judged first, as `run
--site` does, and CONFIG only if it is good. With --explain standard output then says where the
fault is (line and column in its file with the value as it is written, or below which line a missing
key belongs), what is wanted, and where another station has the same number. Warnings on standard
error say if a key of `live` is wrong, if no other machine can connect, if SITE names a station that
CONFIG doesn't have, and with --live if the line is on another machine.
Exit status: 0 good, 1 wrong settings or site, 2 usage, 3 a file or the output failed, 4 no memory";

pub(crate) const REPLAY: &str = "\
TRACE has one event a line; lines that are empty or begin with `#` are skipped. MS is a moment in
milliseconds (1 to 15 digits), HEX is 1 to 1,024 octets, and one space stands between fields:
  MS S HEX    octets come from the line
  MS T        time passes
  MS O        a control centre connects
  MS R HEX    octets come from it
  MS C        its connection is cut
  MS W WALL   the wall clock shows WALL, in ms since 1970-01-01 UTC (1 to 15 digits)
Printed, one action a line: `MS > S HEX` to the line, `MS > T HEX` to the control centre,
`MS > X CAUSE` when the gateway closes the connection, and `MS > G S K` when session K of the link
to station S has ended, and its last report may be lost. With --words each event and each action is
a line: MS, the way, and the frame in words. TRACE may then be a record too (`run --record`): its
events are run, from the first one on, and the lines of its actions are passed over. The ways are
coloured on a terminal, unless NO_COLOR is set, and always with --color.
Exit status: 0 done, 1 wrong settings or trace, 2 usage, 3 a file or the output failed, \
4 no memory";

pub(crate) const SIM: &str = "\
SCRIPT has lines of these forms, others empty or a comment `#`; a number has 1 to 9 digits:
  turns N               how many events the run has (required, once)
  ack N                 the control centre acknowledges each N I frames (1 to 32767, default 1)
  report S CLASS HEX    station S, from 1, has this ASDU of class 1 or 2
  lose request N        the Nth request on the line doesn't arrive
  lose answer N         the answer to it is lost
  spoil answer N P      the octet at place P of that answer is changed
  cut N                 at event N the connection is cut
  wall WALL             at event 1 the wall clock shows WALL (ms since 1970-01-01 UTC)
  send N HEX            at event N the control centre sends this ASDU (9 to 249 octets)
Exit status: 0 done, 1 wrong settings or script, 2 usage, 3 a file or the output failed, \
4 no memory";

pub(crate) const AUDIT: &str = "\
RECORD has a line for each event, as a trace has it, and for each action, as replay prints it, in
the order in which they came and went out. A last line that was cut short, and one with `!`, are
left out. Printed: `same, N events, M actions`, or `line N differs`, with the first line that isn't
the run's.
Exit status: 0 the same, 1 another, or wrong settings or record, 2 usage, 3 a file or the output
failed, 4 no memory";

pub(crate) const RUN: &str = "\
CONFIG has a table `live` with two keys:
  line = \"tcp:HOST:PORT\"    a serial device server, or \"unix:PATH\"
  listen = \"HOST:PORT\"      where control centres connect (the usual port is 2404)
Whoever connects takes the control centre's place. --allow, once for each address, limits who may
connect; without it anyone may. With --redial the run lives on if the line ends or isn't there.

With --state DIR the run keeps its state in that directory. Each event is on the disk before
anything goes out that follows from it, and the next run there goes on where this one ended, however
it ended. Without it a run begins with an empty queue, and what no control centre had acknowledged
is lost with the process. If the state can't be kept, and what stands there can be marked as stale,
the run goes on without it and says so each minute; with --state-or-stop it ends.

With --log standard error gets a line for each thing that happens; with --log-severity each begins
with syslog's number, <3> to <6>. With --status HOST:PORT a browser sees there how the run stands.
Standard output stays empty unless --record is given: then each event is printed, as a trace has it,
before the gateway takes it, and each action, as replay prints it.

With --site SITE a file says what belongs to this site: names of the line and its stations, and keys
that say what these words do. What words say wins, and a flag is set if either says so.

Exit status: 1 wrong settings or site, 2 usage, 3 a file can't be read, the state is another
process's or can't be kept there, the line can't be reached, the line ended, or listening failed,
4 no memory";

pub(crate) const STATUS: &str = "\
PLACE is the HOST:PORT of `run --status`. Printed: the table, whose first word is OK, WARNING or
CRITICAL, or with --json the page that programs read.
Exit status: by the table, as a monitor wants it (Nagios), 0 ok, 1 warning, 2 critical; 3 nobody
answers as a live run does, or the output failed, 4 no memory";

pub(crate) const STATE: &str = "\
Printed: how a run that begins there would go on, in the words that it would log, the segment that
counts, how many events stand behind its head, the date of the latest one, how the link to each
station stands, and the settings under which that was kept. With CONFIG each key whose value is
another there has its line, and with --reports each report that is queued.
Nothing in DIR is changed, and a run may have it.
Exit status: 0 done, 1 what is there can't be read, so that a run would put it aside and begin anew,
2 usage, 3 a file or the output failed, 4 no memory";

pub(crate) const CAPTURE: &str = "\
RECORD is what `run --record` prints, as `audit` takes it; `-` is standard input, so that a live run
can be followed: `telegate run --record CONFIG | telegate capture CONFIG - | wireshark -k -i -`.
Printed: the capture. The connection is TCP between 192.0.2.1 (the control centre) and 192.0.2.2
port 2404 (the gateway). The line is an interface of its own, and a gap is a packet there without
octets. Each packet stands at its time. At the first line that is neither an event nor an action the
capture ends. Wireshark and tshark show the frames of the line with
  -d rtacser.data,iec60870_101
and the sizes of its addresses by the preferences, each `1 octet` to `3 octet` as in CONFIG,
  -o 'iec60870_101.linkaddr_len:1 octet'    `link`
  -o 'iec60870_101.cot_len:1 octet'         `cause`
  -o 'iec60870_101.asdu_addr_len:1 octet'   `ca`
  -o 'iec60870_101.asdu_ioa_len:2 octet'    `ioa`
Exit status: 0 done, 1 wrong settings or record, 2 usage, 3 a file or the output failed, \
4 no memory";

pub(crate) const STATIONS: &str = "\
SCRIPT has the lines of a script of `sim`. Those of the outstations count:
  report S CLASS HEX    station S, from 1, has this ASDU of class 1 or 2
  lose request N        the Nth request since the start doesn't arrive
  lose answer N         the answer to it is lost
  spoil answer N P      the octet at place P of that answer is changed
Other lines are known here alone, with MS from 10 ms to a day:
  at MS report S CLASS HEX     once MS ms have passed since a gateway came first
  every MS report S CLASS HEX  and again each MS ms
  at MS restart S              the station is switched off and on: its reports are gone
  every MS restart S           the same again each MS ms
  confirm S             station S confirms commands, and says when they are done
  refuse S              station S refuses them
  delay answer N MS     the answer to the Nth request goes out MS ms late
`turns`, `ack`, `cut`, `wall` and `send` mean nothing here. The command listens at `live.line` of
CONFIG (tcp:HOST:PORT or unix:PATH), where `run` finds the outstations, and goes on until it is
ended. A station that neither confirms nor refuses commands takes them on the link alone. Printed:
where it listens, who comes and goes, and with --words each frame of the line.
Exit status: 1 wrong settings or script, 2 usage, 3 a file can't be read, or listening failed,
4 no memory";

pub(crate) const CENTRE: &str = "\
Without WHAT each station is interrogated, and what passes is printed until the connection ends.
Otherwise the answers are waited for, and the last line says what became of it. WHAT is one of:
  interrogate [CA]      station interrogation: of CA, of the stations of CONFIG, or of all (65535:
                        then each station of CONFIG has to answer)
  counters [CA]         counter interrogation, the same
  clock [CA]            sets clocks to this machine's UTC time
  select CA/IOA VALUE   or execute; operate is both, and deactivate takes a select back
VALUE is on or off (a single command), double:on or double:off, up or down (a regulating step
command), normalized:0.5, scaled:-100 or float:1.5 (a set point).
A file that has the name of one of these words is ./FILE.
Exit status: 0 confirmed, 1 refused, or wrong settings, 2 usage, 3 no reply in time, no connection,
or a file or the output failed, 4 no memory";
