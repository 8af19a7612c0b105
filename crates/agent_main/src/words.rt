// What is printed for words that no command takes, or that ask for it.

pub const USAGE: &[u8] =
    b"usage: yefontsila check CONF | once RULES | replay [--plain] CONF | generate SEED COUNT | serve CONF\n";

pub const VERSION: &[u8] = b"yefontsila 0.1.0-dev\n";

pub const HELP: &[u8] = b"\
A firewall agent for HAProxy: judges HTTP requests and responses, which HAProxy sends over SPOP 2.0, by rules in SecLang.

Usage: yefontsila COMMAND

Commands:
  check CONF             Reads a configuration and its rules, and prints what they mean, or the first fault
  once RULES             Serves the one connection from standard input to standard output, by the rules of a file
  replay [--plain] CONF  Runs the script on standard input over several connections, and prints what each step shows
  generate SEED COUNT    Makes a script of COUNT requests and responses, runs it, and prints what became of them
  serve CONF             Listens and serves HAProxy; its input takes the lines reload, stats and stop

Arguments:
  CONF     The configuration, a TOML file
  RULES    A file of rules
  SEED     A number from 0 to 18446744073709551615: the same number makes the same script
  COUNT    A number from 1 to 5000
  --plain  Judge by the slow functions that are nearest to the definitions; they print the same

Options:
  -h, --help     Print this text
  -V, --version  Print the version

Exit status:
  0  The work was done
  1  once: the connection did not end in order
  2  The words are none of these, or a number is out of range; the usage line was printed
  3  The configuration, a rule or the script is refused, or a file is missing; the line of the fault was printed
  4  Reading a file or the input failed
  5  Writing failed
  6  Out of memory
  7  serve: listening, or taking a connection, failed
";
