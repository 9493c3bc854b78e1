//! What standard error says to someone who asks for help or for the version.

/// The page of help: each command with its files and an example, and the statuses.
pub(crate) const PAGE: &str = "\
ide: a model host and device for PCI Express IDE and TDISP, whose verdicts are proved

  ide run TOPOLOGY SCRIPT [--packets]
      runs the events of a script on the links of a topology: a line for each verdict, and one of totals;
      with --packets also the bytes of each packet that is sealed
      status 0, or 3, 4, 5, 6, 7, 8
      ide run examples/one_link.toml examples/first.script
  ide judge TOPOLOGY SCRIPT VERDICTS [--all]
      compares a text with what `run` writes: `same`, or the first line that differs, with --all every one
      status 0 if it is the same, 1 if it differs, or 3, 4, 5, 6, 7, 8
      ide judge examples/one_link.toml examples/first.script examples/first.expected
  ide why TOPOLOGY SCRIPT N
      tells event N, from 1: its verdict, the rule that answers, and the facts of the state before it
      status 0, 9 if the script has no event N, or 3, 4, 5, 6, 7, 8
      ide why examples/one_link.toml examples/first.script 3
  ide cover TOPOLOGY SCRIPT [--events]
      counts how often each rule answers, and the tags that were forged; with --events tells the rules of each event
      status 0, or 3, 4, 5, 6, 7, 8
      ide cover examples/one_link.toml examples/first.script
  ide check TOPOLOGY [--migrate]
      says whether a topology is sound, or its first fault; with --migrate writes it in version 2
      status 0, or 3, 5, 6, 7, 8
      ide check examples/one_link.toml
  ide show PACKETS
      shows each line of a file of packets, in hexadecimal digits
      status 0, or 4, 5, 6, 7, 8
      ide show examples/packets.txt
  ide generate SEED COUNT [--script | --topology]
      runs events that are made from a seed, in 1 to 100000 rounds: a line of totals; or writes their script or topology
      status 0, or 6, 7
      ide generate 7 1000

status 0: the input was read to its end, and every line was written
       1: the text that was judged is not the one that is due
       2: the words are no command
       3: the topology is faulty
       4: a line of the script or packet file is faulty
       5: a file could not be read
       6: standard output could not be written
       7: there was no memory
       8: a file is too long
       9: the script has no such event

Any file may be a pipe, as /dev/stdin. `ide help` shows this page, and `ide --version` the version.";

/// The last version of CHANGELOG.md, and the logic of the kit that proved this program.
pub(crate) const VERSION: &str =
    "ide 0.1.0 and the changes that CHANGELOG.md lists, proved by a kit of logic dac8208d650f15bf";
