// What stands around a program, and what is told in colours.

/// Files, links, events, requests in JSON, journals, replies, words that are no command's or ask for help, and colours.
pub static ROWS: &str = "FileFault
----
main { }
----
The file `none.rbi` can't be read.
See whether its name is right, and whether it may be read.
====
FileTooLong
----
main { }
----
The file `long.rbi` has more than 1048576 bytes.
Shorten it.
====
OutputFault
----
main { }
----
The output can't be written.
See whether what reads it still runs, and whether the disk is full.
====
Memory
----
main { }
----
No memory was left.
Give the program more, or less to do.
====
FileFault of a long name
----

----
The file `aaaaaaaaaaaaaaaaaaaaaaaaaaaaaaaaaaaaaaaaaaaaaaaaaaaaaaaaaaaa...` can't be read.
See whether its name is right, and whether it may be read.
====
DialFault
----
main { }
----
Nothing answers at `127.0.0.1:99`, so nothing was run.
An address looks like 127.0.0.1:4000. Start a server there by `serve 127.0.0.1:99 S COUNT`; it ends after COUNT sessions.
====
DialFault of a child
----
main { }
----
The child process that is to serve `files.rbs` can't be started, so nothing was run.
See whether this program's file is still where it was started from, and whether more processes may be started.
====
ListenFault
----
main { }
----
`127.0.0.1:99` can't be listened on.
An address looks like 127.0.0.1:4000, and is one of this machine. See whether another program listens there.
====
LinkFault
----
main { }
----
The link to `127.0.0.1:99` broke in exchange 3.
This batch may be performed all the same, and those before it are. See whether the server still runs, and what its objects hold.
====
LinkFault of a child
----
main { }
----
The link to the child process that serves `files.rbs` broke in exchange 1.
Why it did stands above, if it could say so. The next run begins with the objects of the file again.
====
NoEvent
----

----
Line 12 of `hub.events` is no event.
Each line is `open`, `piece K HEX` or `close K`, and ends with a line feed, the last one too. K is a number from 0 to 4294967295, and HEX has two digits for each byte, with lower-case letters.
====
NotJson
----

----
`request.json` isn't JSON, or has more than 127 arrays and objects within each other.
Let a library for JSON write it. It is UTF-8, and each number is within the range of a double.
====
WrongForm
----

----
Value 3 of `request.json` is the first that isn't as requests have it.
Values are counted from 0: an array or object before what is in it, and its members in the order of their keys. docs/json.md has the form of requests.
====
DiskFault
----

----
The journal `a.journal` can't be had, or a call of its file failed.
See whether another process uses it, whether it may be written, and whether the disk is full. What was answered is kept; start again, and the journal is read anew.
====
Journal(Full)
----

----
The journal `a.journal` is full.
No record may end past 2^40 bytes. Begin another journal, on a service file with the objects as they are now.
====
Journal(None)
----

----
The file `a.journal` is no journal, and nothing of it was changed.
See whether its name is right. A journal begins with the bytes 52 42 4a 01; an empty file becomes one.
====
Journal(BadRecord)
----

----
The journal `a.journal` has a record that no server wrote, and nothing of it was changed.
No crash leaves such a record. Take a copy of the journal from before; docs/journal.md has the form.
====
Cut(0)
----

----
In exchange 3 `here:9` ended the link without a reply.
This batch may be performed all the same, and those before it are. See whether the server still runs, and what its objects hold.
====
Frame(0)
----

----
In exchange 1 `here:9` sent what is no reply, from byte 0 on.
See whether it is the server that is meant, and of this program's version. This batch may be performed all the same, and those before it are.
====
Cut(0) of a child
----

----
In exchange 3 the child process that serves `files.rbs` ended the link without a reply.
Why it did stands above, if it could say so. The next run begins with the objects of the file again.
====
words
----

....
help
....
--help
....
-h
....
help help
----
The commands, where P is the file of a program and S that of a service:
  check P                tell whether the program P is accepted
  split P                show how each batch of P is divided
  unsplit P S [FUEL]     run P as it stands on the service S, and send nothing
  both P S [FUEL]        run P, and S beside it in the same process
  run ADDRESS P [FUEL]   run P on the server that listens at ADDRESS
  pair P S [FUEL]        run P, and S beside it in a child process
  serve ADDRESS S COUNT  serve S at ADDRESS to COUNT clients, one after the other
  keep ADDRESS S COUNT J the same, and keep each request in the journal J before it is performed
  child S                serve S to one client over standard input and output
  hub E S                play the events of many clients, which stand in the file E, on S
  json S R               answer the request in JSON in the file R on S
  trial N                run a program of its own on a service of its own with N files
FUEL is how many calls and turns of loops the program may make, 1000000 where it is left out.
ADDRESS is a host and a port, such as 127.0.0.1:4000. COUNT is 1 to 1000000, and N is 1 to 10000.
`rbi help COMMAND` tells more of a command: what it does, its words, its statuses, an example.
`rbi --version` tells the version.
====
words
----
help check
....
check --help
....
check -h
----
rbi check PROGRAM
It reads a program, checks its types, and tells whether each of its batches can be sent as one script.
Its words:
  PROGRAM  the file of a program
Its statuses:
  0   the program is accepted
  3   a file can't be read
  4   the program isn't read, or isn't typed
  5   a batch of the program can't be sent as one script
  9   the output can't be written
  10  no memory was left
  13  a file has more than 1048576 bytes
An example:
  rbi check examples/large.rbi
====
words
----
--version
----
Lunguepo 1.0.0, whose messages are of versions 1 and 2.
====
words
----
chek a.rbi
----
`chek` is no command; `check` is the nearest.
`rbi help check` tells more of it, and `rbi help` all commands.
====
words
----
help sevre
----
`sevre` is no command; `serve` is the nearest.
`rbi help serve` tells more of it, and `rbi help` all commands.
====
words
----
rn 127.0.0.1:4000 a.rbi
----
`rn` is no command; `run` is the nearest.
`rbi help run` tells more of it, and `rbi help` all commands.
====
words
----
compile a.rbi
----
`compile` is no command.
`rbi help` tells all commands.
====
words
----
both a.rbi
----
`rbi both` takes other words: `rbi both PROGRAM SERVICE [FUEL]`.
`rbi help both` tells more.
====
words
----
both a.rbi a.rbs much
----
`much` is no FUEL, which is a number from 0 to 1000000000.
`rbi help both` tells more.
====
words
----
trial 10001
----
`10001` is no N, which is a number from 1 to 10000, of at most five digits.
`rbi help trial` tells more.
====
words
----
trial
----
`rbi trial` takes other words: `rbi trial N`.
`rbi help trial` tells more.
====
words
----
serve 127.0.0.1:4000 a.rbs 0
----
`0` is no COUNT, which is a number from 1 to 1000000.
`rbi help serve` tells more.
====
words
----
check a.rbi b.rbi
----
`rbi check` takes other words: `rbi check PROGRAM`.
`rbi help check` tells more.
====
colours
----
a.rbi:9:3:
 9 | val a = b;
   | ^ here
12 | a || b
   |   ^
It is wrong.
Mend it.

----
\x1b[1ma.rbi:9:3:\x1b[0m
\x1b[1;34m 9 |\x1b[0m val a = b;
\x1b[1;34m   |\x1b[0m\x1b[1;31m ^ here\x1b[0m
\x1b[1;34m12 |\x1b[0m a || b
\x1b[1;34m   |\x1b[0m\x1b[1;31m   ^\x1b[0m
\x1b[1mIt is wrong.\x1b[0m
Mend it.

====
colours
----

----

====
colours
----
32 calls
----
\x1b[1m32 calls\x1b[0m
====
colours
----
a:1:2:
----
\x1b[1ma:1:2:\x1b[0m
====
colours
----
7 |
----
\x1b[1;34m7 |\x1b[0m";
