//! The parts of the helps that follow the text of `clap`.

// The lines that `show` and `monitor` print, between two texts.
macro_rules! with_lines {
    ($before:literal, $after:literal) => {
        concat!(
            $before,
            "  dump PLACEMENT          the pieces on all squares, as in a FEN
  field SQUARE PIECE      the piece on one square
  times TIME TIME STATUS  the times of both players on the clock
  noclock BYTES STATUS    no clock is connected
  ack A B C D STATUS      the clock's reply to a command, in four bytes
  serial BYTES            the serial number
  trademark BYTES         the trademark
  version MAIN.SUB        the version of the board
  battery BYTES           the state of the battery
  longserial BYTES        the long serial number
  other CODE BYTES        a message of any other kind
  refused CODE FAULT      a message with an invalid body
  cut N                   a message cut off after N bytes by the next one
  badlength               the start of a message, with a length below 3
  stray BYTE              a byte outside all messages
  unfinished N            a message cut off after N bytes by the end of input

PIECE is one of PRNBKQ (white), prnbkq (black) and XYZ (extra pieces), or . for
an empty square. TIME is H:MM:SS, a space and three flags as a number from 0 to
7. Bytes, CODE and STATUS are hexadecimal, and - means no BYTES. FAULT is
wrongsize, or badpiece, badsquare or badreading and the offset of the bad byte
in the body, counted from 0.

With --names some lines continue with a colon and a name. It is a button or a
reply of the clock (ack), its lever and flags (times), the charge of the
battery, or a text (serial, longserial, trademark). The names are known from
other programs. They were not tested with a clock or a board.",
            $after
        )
    };
}

/// The help of the program after clap's own text.
pub const PROGRAM_NOTES: &str = "\
A DGT board is a chess board that reports over a serial line which piece stands
on each square. The program that talks to it is called the host: the host sends
commands, and the board sends messages.

'show' and 'monitor' print a line for each message of a board. 'picture' prints
the position after each change, and 'log' what the board stored while no host
was reading. 'ask' writes commands, and 'commands' prints those that a host
sends. 'board' simulates a board, to test a host. 'simulate' runs a script with
a simulated board, a host, and the line between them.

Examples:
  $ dgt show 8e00052401
  00000005 field e4 P
The five bytes 8e 00 05 24 01 are one message: a white pawn now stands on e4.
The number counts the bytes read so far.

  $ dgt ask version | dgt board | dgt monitor
  00000005 version 1.3
A simulated board replies to the command for its version.

Exit status: 0 on success. It is 1 if standard input or output fails (also if
the reader of a pipe has exited), or if a line of a script is wrong. It is 2 if
the command line, a word or a placement is wrong, and 3 if memory runs out. A
line on standard error gives the reason.

'dgt show --help' describes the command 'show', and so on.";

/// The help of `show` after clap's own text.
pub const SHOW_NOTES: &str = with_lines!(
    "\
Prints a line for each message and each fault in the bytes of HEX. A line is the
number of bytes read so far, then one of

",
    "

HEX is two hexadecimal digits per byte, in upper or lower case, without
separators. 'dgt: bad hex' means that it contains another character or an odd
number of digits. Standard input is not read.

Exit status: 0, even if the bytes contain faults. It is 1 if standard output
fails, 2 if the command line or HEX is wrong, and 3 if memory runs out.

Examples:
  $ dgt show 8e00052401
  00000005 field e4 P
  $ dgt show 8e000205
  00000003 badlength
  00000004 stray 05
  $ dgt show --names 8d000a0a10082a003100
  00000010 ack 10 88 00 31 00: back pressed"
);

/// The help of `monitor` after clap's own text.
pub const MONITOR_NOTES: &str = with_lines!(
    "\
Reads the bytes that a board sends from standard input, until its end. Prints a
line for each message and each fault in the bytes, as they arrive. A line is the
number of bytes read so far, then one of

",
    "

Exit status: 0, even if the bytes contain faults. It is 1 if standard input or
output fails, or if the input has not ended after 4294967295 reads. It is 2 if
the command line is wrong, and 3 if memory runs out.

Example:
  $ printf '\\x8e\\x00\\x05\\x24\\x01' | dgt monitor
  00000005 field e4 P

Example with a board on a serial port. 'dgt ask restart' first completes any
command that another program left half-sent. Then it requests all squares, and
each change from now on. Press Ctrl-C to stop.
  $ stty -F /dev/ttyUSB0 9600 raw -echo cs8 -parenb -cstopb clocal
  $ exec 3<>/dev/ttyUSB0
  $ dgt ask restart >&3
  $ dgt monitor <&3
  00000067 dump rnbqkbnr/pppppppp/8/8/8/8/PPPPPPPP/RNBQKBNR
  00000072 field e2 .
  00000077 field e4 P"
);

/// The help of `picture` after clap's own text.
pub const PICTURE_NOTES: &str = "\
Reads the bytes that a board sends from standard input, until its end. Prints a
line for each message that sets the position, as soon as its last byte has
arrived. A line is the number of bytes read so far, then the position as in the
first field of a FEN: the ranks from 8 down to 1 with / between them. Each rank
consists of the letters of its pieces (PRNBKQ white, prnbkq black, XYZ extra)
and digits that count empty squares in a row.

A dump sets all squares ('dgt ask dump' requests one), and a field message sets
one square. Until the first dump the position is unknown, and field messages
print nothing. Other messages and faults print nothing either; 'dgt monitor'
prints them.

A fault may mean that a message was lost, and then the position is wrong. With
--doubt the first fault after a dump prints a line: the number of bytes read so
far, then the word doubt. The position is in doubt until the next dump. Further
faults before that dump print nothing, and so do faults before the first dump.
A message that 'dgt monitor' prints as 'refused 0d badreading' is not a fault
here: a clock sends it while it is being set, and nothing was lost.

With --clock a message of the clock prints a line if its text differs from the
last one. The line is the number of bytes read so far, the word clock, the times
of the left and right side as H:MM:SS, and running or stopped. The first time in
the message is taken for that of the left side. The next word is whose turn it
is: white, black, or - if the clock reports neither or both. These words follow
if they apply, and so do rightblocked, rightpermove and rightfallen:

  low          the battery of the clock is low
  leftblocked  the flag of the left side has fallen, and the clock stays at zero
  leftpermove  the left side has a time for each move
  leftfallen   the clock shows a flag for the left side

If no clock is connected, the text is 'clock none'. 'dgt ask updatenice'
requests the changes of the position and of the clock.

Exit status: 0, even if the bytes contain faults. It is 1 if standard input or
output fails, or if the input has not ended after 4294967295 reads. It is 2 if
the command line is wrong, and 3 if memory runs out.

Examples:
  $ dgt ask dump | dgt board | dgt picture
  00000067 rnbqkbnr/pppppppp/8/8/8/8/PPPPPPPP/RNBQKBNR
  $ { dgt ask dump | dgt board; printf '\\x8e\\0\\x5\\x34\\0'; } | dgt picture
  00000067 rnbqkbnr/pppppppp/8/8/8/8/PPPPPPPP/RNBQKBNR
  00000072 rnbqkbnr/pppppppp/8/8/8/8/PPPP1PPP/RNBQKBNR

Example with a fault. A pawn moves from e2 to e4, and the last byte of the
message that e2 is empty is lost:
  $ bytes='\\x8e\\0\\x5\\x34\\x8e\\0\\x5\\x24\\x1'
  $ { dgt ask dump | dgt board; printf \"$bytes\"; } | dgt picture --doubt
  00000067 rnbqkbnr/pppppppp/8/8/8/8/PPPPPPPP/RNBQKBNR
  00000072 doubt
  00000076 rnbqkbnr/pppppppp/8/8/4P3/8/PPPPPPPP/RNBQKBNR

Example with the clock:
  $ dgt ask dump clock clock | dgt board | dgt picture --clock
  00000067 rnbqkbnr/pppppppp/8/8/8/8/PPPPPPPP/RNBQKBNR
  00000077 clock 0:00:00 0:00:00 stopped -";

/// The help of `log` after clap's own text.
pub const LOG_NOTES: &str = "\
Reads the bytes that a board sends from standard input, until its end. A board
stores events while no host reads, and sends them in one message, with the code
0f, in reply to 'dgt ask log'. This command prints a line for each event, as
soon as the whole message has arrived. A line is the number of bytes up to the
end of the event, then one of

  piece SQUARE PIECE  the piece that stands on the square from now on
  time H:MM:SS F      the time of a player; F is 6 for one player, 7 for the
                      other
  powerup             the board was switched on
  fourrows            pieces stand on four ranks, as before a game
  emptyboard          the board is empty
  begin               the pieces are on the starting squares of a game
  turnedbegin         the same, with the board turned
  tag                 a tag
  watchdog            the board restarted by itself
  downloaded          all events before this one were sent to a host
  nothing             nothing is stored here
  erased              nothing was ever stored here
  end                 the end of the stored events
  unknown BYTE        any other byte, in hexadecimal

PIECE is one of PRNBKQ (white), prnbkq (black) and XYZ (extra pieces), or . for
an empty square. A + after it means that bit 4 of its byte is set; the meaning
of this bit is not published. Other messages and faults print nothing; 'dgt
monitor' prints them.

The meaning of these bytes is known only from other programs, and was never
tested with a board. 'dgt board' stores no events.

Exit status: 0, even if the bytes contain faults. It is 1 if standard input or
output fails, or if the input has not ended after 4294967295 reads. It is 2 if
the command line is wrong, and 3 if memory runs out.

Example:
  $ printf '\\x8f\\0\\xc\\x6a\\x40\\x34\\x41\\x24\\x61\\x30\\x5\\x6b' | dgt log
  00000004 powerup
  00000006 piece e2 .
  00000008 piece e4 P
  00000011 time 1:30:05 6
  00000012 end";

/// The help of `ask` after clap's own text.
pub const ASK_NOTES: &str = "\
Writes the bytes of these commands to standard output, in the given order and
all at once. Redirect them to a board's serial port, or pipe them into 'dgt
board'.

Each word, and what it asks the board to do:
  reset             report no changes from now on
  clock             send the times of the clock
  dump              send the pieces on all squares
  update            report each change of a square or the clock from now on
  updateboard       report each change of a square from now on
  updatenice        as update, but the clock only if its reading has changed
  serial            send the serial number
  longserial        send the long serial number
  trademark         send the trademark
  battery           send the state of the battery
  version           send the version of the board
  follow            updateboard and dump: enough to follow the position
  restart           255 zeros, which complete a half-sent command, then follow
  log               send the events stored while no host was reading: see 'dgt
                    log --help'
  beep N            have the clock beep for N of its time units, 0 to 255
  end               have the clock show its times again
  button            have the clock report its buttons
  clockversion      have the clock report its version
  display TEXT      show up to six digits, spaces or hyphens on the clock
  text TEXT         show up to eight ASCII characters on the clock
  icons HEX         show these icons on the clock, up to 252 bytes
  setandrun HEX     set and start the clock: hours, minutes and seconds of both
                    players and a control byte
  clockmessage ID HEX
                    pass any other message to the clock, up to 252 bytes
  leds HEX          set the lights of the board: up to 255 bytes
  stray HEX         nothing: this byte starts no command, and a board ignores it

A shorter TEXT is padded with spaces. Instead of TEXT, display also takes eight
bytes and text nine bytes: see 'dgt commands --help'. HEX is two hexadecimal
digits per byte. For icons, clockmessage and leds, - means no bytes. An empty
HEX is an error. ID is one byte. N has no sign and no leading zeros.

Each word is one argument. A -- before the first word is ignored. Or quote a
command and its operands as one argument, with single spaces: 'beep 3'. The
lines that 'dgt commands' prints for commands and stray bytes have this form. So
this writes the commands in the file sent again:

  dgt commands <sent | cut -d' ' -f2- | xargs -rd '\\n' dgt ask

As arguments of their own, --help and -h print this help, except as the TEXT of
text.

Exit status: 0 on success. It is 1 if standard output fails, 2 if the command
line or a word is wrong (then nothing is written), and 3 if memory runs out.

Examples:
  $ dgt ask dump version | dgt board | dgt monitor
  00000067 dump rnbqkbnr/pppppppp/8/8/8/8/PPPPPPPP/RNBQKBNR
  00000072 version 1.3
  $ dgt ask clockversion | dgt board | dgt monitor
  00000010 ack 10 09 14 00 00";

/// The help of `commands` after clap's own text.
pub const COMMANDS_NOTES: &str = "\
Reads the bytes that a host sends to a board from standard input, until its end.
Prints a line for each command and each fault in the bytes, as they arrive. A
line is the number of bytes read so far, then the command in the words of 'dgt
ask --help', or one of

  badsize                 2b and a size below 3
  badstart                2b, a size, and a byte other than 03
  badend                  a message for the clock with a last byte other than 00
  stray BYTE              a byte that starts no command
  unfinished N            a command cut off after N bytes by the end of input

A display with other characters, with dots or with a beep is printed as
'display' and its eight bytes: the places C, B, A, F, E and D, the dots and the
beep. Places A to F are the six digits from left to right. A text with other
characters or with a beep is printed as 'text' and its nine bytes: the
characters and the beep. Bytes are hexadecimal, and - means no bytes. 'dgt ask'
takes the texts of commands and of stray bytes, and writes the bytes again.

Exit status: 0, even if the bytes contain faults. It is 1 if standard input or
output fails, or if the input has not ended after 4294967295 reads. It is 2 if
the command line is wrong, and 3 if memory runs out.

Example:
  $ dgt ask follow beep 3 | dgt commands
  00000001 updateboard
  00000002 dump
  00000008 beep 3";

// The placement that an option of a command takes, between two texts.
macro_rules! with_placement {
    ($before:literal, $after:literal) => {
        concat!(
            $before,
            "P is the first field of a FEN: the ranks from 8 down to 1 with / between them.
Each rank consists of the letters of its pieces (PRNBKQ white, prnbkq black, XYZ
extra) and digits that count empty squares in a row. A game starts with
rnbqkbnr/pppppppp/8/8/8/8/PPPPPPPP/RNBQKBNR. 'dgt: bad placement at 9' means
that P goes wrong at character 9, counted from 0.",
            $after
        )
    };
}

/// The help of `board` after clap's own text.
pub const BOARD_NOTES: &str = with_placement!(
    "\
Reads the bytes of a host's commands from standard input, until its end. Writes
the bytes of the board's replies to standard output, each as soon as its command
has arrived. 'dgt monitor' prints them.

Each command, in hexadecimal, and what the board does:
  40      reset: reports no changes from now on
  41      sends the times of the clock, 0:00:00 for both players
  42      sends the pieces on all squares
  43      reports each change of a square or the clock from now on, and sends
          the clock at once if it has not sent it yet
  44      reports each change of a square from now on
  45      sends the serial number, 00001
  47      sends the trademark, SIMULATED BOARD
  4b      as 43, but an unchanged clock reading is not sent again
  4c      sends the state of the battery, the byte 64
  4d      sends the version, 1.3
  55      sends the long serial number, 0000000001
  2b ..   a message for the clock: size, 03, id, payload, 00. The board
          acknowledges it, with the version 1.4 of the clock if the id is 09
  60 ..   lights: size, and as many bytes. The board ignores them

It ignores any other byte. Nobody moves the pieces or runs the clock here, so no
changes are reported later.

",
    "

Exit status: 0 at the end of standard input, without a reply to an unfinished
command. It is 1 if standard input or output fails, or if the input has not
ended after 4294967295 reads. It is 2 if the command line or P is wrong, and 3
if memory runs out.

Examples:
  $ dgt ask dump version | dgt board | dgt monitor
  00000067 dump rnbqkbnr/pppppppp/8/8/8/8/PPPPPPPP/RNBQKBNR
  00000072 version 1.3
  $ dgt ask dump | dgt board --position 8/8/8/8/8/8/8/K6k | dgt monitor
  00000067 dump 8/8/8/8/8/8/8/K6k
  $ dgt ask clockversion | dgt board | dgt monitor
  00000010 ack 10 09 14 00 00

Example on a serial port, for a host at the other side of the line. Press Ctrl-C
to stop.
  $ stty -F /dev/ttyUSB0 9600 raw -echo cs8 -parenb -cstopb clocal
  $ dgt board <>/dev/ttyUSB0 >&0"
);

/// The help of `simulate` after clap's own text.
pub const SIMULATE_NOTES: &str = with_placement!(
    "\
Simulates the board of 'dgt board', a host that keeps a picture of its position,
and a line each way between the two. Reads a script from standard input until
its end, with one act per line. Prints the outcome of each act before it reads
on.

The acts:
  change SQUARE PIECE  a piece is put on a square of the board ('change e4 P'),
                       or taken off ('change e2 .')
  clock HEX            the board's clock now shows this: seven bytes, the body
                       of a message of the clock
  host HEX             the host sends this command ('dgt board --help' lists the
                       commands)
  send                 the board sends its next message
  toboard N            N bytes arrive at the board (fewer if fewer are on the
                       line, or if it comes to owe 8 replies)
  tohost N             N bytes arrive at the host (fewer if fewer are on the
                       line)
  break                the line is cut, and both sides notice: all bytes on it
                       are lost, the host forgets its picture, and the board
                       reports no changes until the host requests them again
  hostbreak            the line is cut, and only the host notices: all bytes on
                       it are lost, the host forgets its picture, and it sends
                       255 zeros, 44 and 42 to start over

With --faults there are more acts:
  garbleup HEX         these bytes replace all bytes on the line to the host; -
                       means no bytes
  garbledown HEX       the same on the line to the board
  boardlost            the board loses power and gets it back: it keeps its
                       squares and its clock, and forgets its mode, what it
                       reported, the replies it owes and a half-read command
  restart              the host gives up all replies that it waits for, and
                       sends 255 zeros, 44 and 42 after the bytes that are
                       already on the line; it keeps its picture
  giveup               the host gives up all replies that it waits for

Words are separated by single spaces. HEX is two digits per byte: up to 255
bytes for garbleup, and up to 254 for garbledown. N is 1 to 65535. A line has up
to 519 bytes.

The outcome of an act:
  done                 the act is done
  nothing              the board has nothing to send, or the line is empty
  noroom               the line has no room for all the bytes
  busy                 the board owes 8 replies, and takes no bytes until it
                       sends one
  toomany              the host waits for 16 replies, and can't request more

An act that is not done changes nothing. At the end of standard input, four
lines are printed:
  board PLACEMENT      the pieces on the board
  host PLACEMENT       the pieces in the host's picture, or unknown before the
                       first dump has arrived
  hostclock CLOCK      the clock as the host last received it, printed as times
                       or noclock of 'dgt monitor --help', or unknown
  quiet ANSWER         yes if both lines are empty, no message or command has
                       arrived in part, and the board has nothing to send, else
                       no

",
    "

Exit status: 0 at the end of standard input. It is 1 if a line of the script is
wrong, if standard input or output fails, or if the input has not ended after
4294967295 reads. It is 2 if the command line or P is wrong, and 3 if memory
runs out. 'dgt: line 2: bad at 7' means that line 2 is not an act: its first
wrong or missing word starts at character 7, counted from 0.

Example. The host requests all squares, and they arrive in two parts:
  $ printf 'host 42\\ntoboard 1\\nsend\\ntohost 66\\ntohost 1\\n' | dgt simulate
  done
  done
  done
  done
  done
  board rnbqkbnr/pppppppp/8/8/8/8/PPPPPPPP/RNBQKBNR
  host rnbqkbnr/pppppppp/8/8/8/8/PPPPPPPP/RNBQKBNR
  hostclock unknown
  quiet yes

Example with faults. The command of the host is lost, and the host restarts:
  $ acts='host 42\\ngarbledown -\\nrestart\\ntoboard 257\\nsend\\ntohost 67\\n'
  $ printf \"$acts\" | dgt simulate --faults
  done
  done
  done
  done
  done
  done
  board rnbqkbnr/pppppppp/8/8/8/8/PPPPPPPP/RNBQKBNR
  host rnbqkbnr/pppppppp/8/8/8/8/PPPPPPPP/RNBQKBNR
  hostclock unknown
  quiet yes"
);
