//! The texts that help prints besides the commands and options.

/// The version of each program, which is that of the newest numbered heading in CHANGELOG.md. `tests/test_launcher.py`
/// compares that heading with this version and with those of the C header, the Rust client and the Python client.
pub(crate) const VERSION: &str = "0.3.0";

/// The end of the help of `tcrx`: the lines of a script with their limits, the exit statuses, and an example.
pub(crate) const SCRIPTS: &str = "Lines of a script (lines that set up come first):
  channel VC WIDTH BUFFER VR [plain]  sets up a virtual channel: its id (0 to 63), the width of its window (even, 2 to 254),
                                      how many data fields its buffer holds (1 to 64), its first V(R) (0 to 255);
                                      plain: data fields have no segment headers
  queue VC APID CAPACITY              gives it a queue for an application (0 to 2046) with room for 1 to 256 packets
  map VC MAP CAPACITY                 gives it a queue for the whole units of a MAP (0 to 63) with room for 1 to 256 units
  frame HEX                           hands over octets that arrive; the frame names its channel
  release VC                          passes the oldest data field from the buffer to reassembly
  take VC APID                        takes the oldest packet out of a queue
  unit VC MAP                         takes the oldest unit out of the queue of a MAP
  clcw VC                             prints the CLCW
  # WORDS                             is a comment
A script has at most 1048576 octets, and is read to its end before the first answer.

Exit status:
  0   the script was run to its end
  1   it ended early: standard error has the line and the reason
  2   a bad command line

Example:
  printf 'channel 1 10 1 0\\nframe 002a040c00c01005c0000000aa\\n' | tcrx run --scid 42
";

/// The text that points to the list of the lines of a script.
pub(crate) const POINTER: &str =
    "The script comes on standard input. tcrx --help lists the lines of a script.";

/// The hint that is printed if there is one word too many. That word is often the name of a file.
pub(crate) const INPUT: &str =
    "tcrx: the script is read from standard input, for example: tcrx run --scid 42 < FILE";

/// The end of the help of `tclive`: the lines with their limits, the exit statuses, and an example.
pub(crate) const LIVE_LINES: &str =
    "Each line is answered before the next is read. Lines are those of a script of tcrx, which tcrx --help lists, and five more:
  link VC RF BL  sets the flags No RF Available and No Bit Lock (0 or 1 each) of a channel's later CLCWs
  report VC      prints the state of a channel: V(R), flags, the FARM-B counter, its buffer, queues and MAPs
  deliver VC     does what release VC does, then takes all that waits in the queues of a channel, and prints its CLCW
  collect VC     does the same without a release
  candidate HEX  does what frame does with the octets that a CLTU carried: one frame, and fill
Lines that set up, blank lines and comments have no answer. The answer to a bad line is bad and the reason. A bad line
changes nothing. A line has at most 8192 octets. At the end of the lines the final report is written.

Exit status:
  0   the lines were answered to their end
  1   not all lines were answered, or the final report wasn't written: standard error has the reason
  2   a bad command line

Example:
  printf 'channel 1 10 1 0\\nframe 002a040c00c01005c0000000aa\\n' | tclive --scid 42
";

/// The end of the help of `tcmake`: the lines with their limits, the exit statuses, and an example.
pub(crate) const MAKER_LINES: &str = "Lines, each of which is answered before the next is read:
  packet APID COUNT HEX                makes a packet of an application (0 to 2047): its sequence count (0 to 16383) and its
                                       packet data field (1 to 65536 octets)
  ad SCID VC NS MAP HEX                makes a Type-AD frame: spacecraft id (0 to 1023), virtual channel (0 to 63),
                                       N(S) (0 to 255), MAP (0 to 63), and what it carries (1 to 1018 octets)
  bd SCID VC MAP HEX                   makes a Type-BD frame
  unlock SCID VC                       makes the Type-BC frame with the control command Unlock
  setvr SCID VC X                      makes the Type-BC frame with the control command Set V(R) to X (0 to 255)
  segments SCID VC NS MAP SIZE HEX     makes a Type-AD frame of each segment of a unit (1 to 65542 octets), SIZE octets each
                                       (1 to 1018)
  explain HEX                          explains a frame
  clcw HEX                             explains a CLCW (four octets)
  cltu HEX                             makes the CLTU that carries the octets (1 to 1029)
  random HEX                           adds the random sequence to the octets, or removes it
  tm SCID VC SIZE HEX                  makes the next telemetry frame of a virtual channel (0 to 7): SIZE octets (11 to 2048),
                                       with a CLCW, four octets
  telemetry HEX                        explains a telemetry frame
  decoder ID MODE                      gives a stream (0 to 255) a new decoder of CLTUs. MODE is detect or correct. With
                                       correct, it corrects one wrong bit in each code block, and accepts one in the
                                       start sequence
  octets ID HEX                        gives the decoder of a stream its next octets
  search ID                            makes the decoder of a stream look for a start sequence again
  frames MOST HEX                      extracts at most MOST frames (0 to 255) from the octets that a CLTU carried
  # WORDS                              is a comment
In ad and bd, the word plain in place of MAP leaves out the segment header. The answer to a bad line is bad and the
reason. A line has at most 262143 octets.

Exit status:
  0   the lines were answered to their end
  1   not all lines were answered, or one was bad with --strict: standard error has the reason
  2   a bad command line

Example:
  echo 'ad 42 1 0 0 1005c0000000aa' | tcmake
";
