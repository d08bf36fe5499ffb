//! The help texts, and the version. No line is longer than 80 columns.

/// The version of the program.
pub(crate) const VERSION: &str = "0.1.0";

pub(crate) const ABOUT: &str =
    "Maps block requests through device-mapper tables to the disks below";

pub(crate) const NOTES: &str = "\
`dmremap help COMMAND` lists the arguments of a command, an example and its exit
statuses. `dmremap help WORD` explains a word of a message, and what to do then.
`dmremap help map` lists these words.

Exit status
  0  done, or help or the version was asked for
  1  FILE, DISKS, PATHS, a store, a name, a device or requests were refused
  2  the command line was wrong
  3  a request was bad
  4  the requests could not be read
  5  the output could not be written
  6  out of memory
  7  a sector of a device could not be read

Manual: man dmremap";

/// The text that `dmremap help help` prints.
pub(crate) const HELP: &str = "\
Explains the program, a command, or a word of a message

Usage: dmremap help [COMMAND|WORD]

With a command, prints what `dmremap COMMAND --help` prints. With a word of a
message, prints what it means in each message that has it, and what to do. With
a whole message, or a message without its beginning or its number, prints only
the entry of that message.

Exit status
  0  the help was printed
  2  there is no such command or word
  5  the output could not be written

Example
  dmremap help 'source: field'
";

pub(crate) const MAP_ABOUT: &str = "Maps requests to pieces on the disks";

pub(crate) const MAP_NOTES: &str = "\
Requests come from the standard input. Pieces go to the standard output, and
messages to the standard error.
START, LEN, CHUNK and OFFSET are in whole sectors of 512 bytes.

FORMAT is one of
  lvm      the metadata of a volume group, as vgcfgbackup(8) writes it; DISKS is
           left out
  concise  devices `NAME,UUID,MINOR,FLAGS,START LEN TYPE ARGS,..`, with `;` in
           between, as `dmsetup table --concise` prints them
  images   images of a volume group's disks; FILE is a list like that of
           --paths, and DISKS and --paths are left out
  table    lines `NAME: START LEN TYPE ARGS`, as dmsetup(8) prints them

Lines
  FILE      NAME: START LEN linear DEV OFFSET
            NAME: START LEN striped COLUMNS CHUNK DEV OFFSET DEV OFFSET ..
            NAME: START LEN zero
            NAME: START LEN error
            NAME: START LEN snapshot ORIGIN STORE KIND CHUNK
            NAME: START LEN snapshot-origin DEV
  DISKS     DISK LEN
  requests  R NAME START LEN      a read
            W NAME START LEN      a write
  pieces    N R DISK START LEN    sectors that the request in line N reads
            N W DISK START LEN    sectors that it writes
            N zero LEN            sectors that read as zeros
            N drop LEN            sectors whose writes are thrown away
            N error LEN           sectors that fail
            N copy DISK START LEN DISK2 START2
                                  sectors of an origin, copied to a store first
            N fill LEN DISK START zeros of an origin, written to a store first
  --status  NAME: 0 LEN snapshot ALLOCATED/TOTAL METADATA
                                  used sectors of a store, after the requests
            NAME: 0 LEN snapshot Invalid
  --before  lines like those of requests, which are played first; the standard
            input starts from the state that they leave
  --paths   DISK PATH             the file or block device that holds this disk
            DISK PATH?offset=BYTES&length=BYTES
                                  the part of it that the disk is
            The run starts from what the stores of snapshots of the kinds P
            and K hold there. Without --paths, every snapshot counts as fresh.
            Only `images` finds out whether PATHS has the right images.
DEV, ORIGIN and STORE are each a disk, or /dev/mapper/NAME for a device of FILE.
KIND is P, N or K. A request has 1 to 1048576 sectors.

Messages, of which `dmremap help WORD` explains each WORD
  dmremap: source: WORD at NUMBER, dmremap: disks: WORD at NUMBER
      read, long, text, syntax, field, name, twice, empty, gap, overlap,
      unknown, cycle, deep, stripe, range, snapshot, store, extents, limit
  dmremap: request N: WORD, dmremap: before: WORD at N
      form, number, length, unknown, long, unended, many
  dmremap: paths: WORD at LINE
      text, syntax, field, name, twice, unknown, limit
  dmremap: disk NAME: WORD
      read, partitions, array, label, header, long, text, differ, twice,
      foreign, missing, ends
  dmremap: store NAME: WORD
      missing, read, magic, version, chunk, gap, order, range, again
  dmremap: device: WORD
      unknown, range
  dmremap: device: WORD at SECTOR
      error, missing, read
  dmremap: requests: read, dmremap: paths: read, dmremap: paths: long,
  dmremap: before: read, dmremap: words: disks, dmremap: output: write,
  dmremap: memory

Exit status
  0  all requests were answered
  1  FILE, DISKS, PATHS, a disk, a store or earlier requests were refused
  2  the command line was wrong
  3  a request was bad
  4  the requests could not be read
  5  the output could not be written
  6  out of memory

Example
  dmremap map table stack.table disks.txt --status < requests.txt";

pub(crate) const TABLE_ABOUT: &str =
    "Checks FILE, and prints it as lines `NAME: START LEN TYPE ARGS`";

pub(crate) const TABLE_NOTES: &str = "\
FILE and DISKS are those of `dmremap map`. The output doesn't show which devices
are read-only.

Exit status
  0  the tables were printed
  1  FILE or DISKS was refused
  2  the command line was wrong
  5  the output could not be written
  6  out of memory

Example
  dmremap table lvm vg0.backup";

pub(crate) const CONCISE_ABOUT: &str =
    "Checks FILE, and prints it in the concise form of dmsetup(8)";

pub(crate) const CONCISE_NOTES: &str = "\
FILE and DISKS are those of `dmremap map`. All devices are printed in one line,
each as `NAME,,,rw,START LEN TYPE ARGS`, or with `ro` if it is read-only.

Exit status
  0  the tables were printed
  1  FILE or DISKS was refused
  2  the command line was wrong
  5  the output could not be written
  6  out of memory

Example
  dmremap concise lvm vg0.backup";

pub(crate) const CHECK_ABOUT: &str =
    "Checks FILE, and whether two of its lines use the same sectors";

pub(crate) const CHECK_NOTES: &str = "\
FILE and DISKS are those of `dmremap map`. Four lines are printed: `devices N`,
`disks N`, `depth N`, and `tidy` or `clash LOWER SECTOR FIRST SECOND`. A clash
means that the devices FIRST and SECOND both use this sector of the disk or
device LOWER, and that at least one of them writes it. An empty table is
tidy, too: look at `devices`.

Exit status
  0  the check was printed, also one with a clash
  1  FILE or DISKS was refused
  2  the command line was wrong
  5  the output could not be written
  6  out of memory

Example
  dmremap check table stack.table disks.txt";

pub(crate) const REPLAY_ABOUT: &str = "Plays requests, and prints what each sector reads or stores";

pub(crate) const REPLAY_NOTES: &str = "\
FILE, DISKS and the requests are those of `dmremap map`, as is --paths: with it
or with images, the replay starts from what the stores of snapshots hold. Each
request has to be for a device that no line uses, and `dmremap check` has to
print `tidy`. For each request N, lines tell what its sectors read or store:
  N old DISK START LEN      what was there before, from START of the disk on
  N wrote K START LEN       what request K wrote, from START of its device on
  N zero LEN                zeros, or writes that are thrown away
  N error LEN               sectors that fail

Exit status
  0  all requests were answered
  1  FILE, DISKS, PATHS or a store was refused, or two lines claim one sector
  2  the command line was wrong
  3  a request was bad, or of no such device
  4  the requests could not be read
  5  the output could not be written
  6  out of memory

Example
  dmremap replay table stack.table disks.txt < requests.txt";

pub(crate) const READ_ABOUT: &str = "Writes the bytes of a device";

/// The usage line of `read`, in which DEVICE is the last word, with or without DISKS.
pub(crate) const READ_USAGE: &str = "dmremap read [OPTIONS] <FORMAT> <FILE> [DISKS] <DEVICE>";

pub(crate) const READ_NOTES: &str = "\
FILE and DISKS are those of `dmremap map`. DEVICE, the last word, is a device of
FILE. Its sectors are read in rising order on the disks or images of PATHS, as
the stores of snapshots have them there, and go to the standard output. Sectors
that read as zeros are written as zeros.

`dmremap read images` takes a list like PATHS for FILE, and no --paths. All
other formats need --paths, and don't compare labels: a whole disk in place of
its partition, or two disks swapped, may give wrong bytes without a message.

The first sector that can't be read ends it: all those before it were written.
  dmremap: device: error at SECTOR    its tables make it fail, or its snapshot
                                      is lost
  dmremap: device: missing at SECTOR  PATHS doesn't name its disk
  dmremap: device: read at SECTOR     its image can't be read there
A sector has 512 bytes. `dmremap help 'source: read'` explains that message, and
`dmremap help 'disk: read'` that one.

Exit status
  0  all bytes were written
  1  FILE, DISKS, PATHS, DEVICE, its sectors, a disk or a store was refused
  2  the command line was wrong
  5  the output could not be written
  6  out of memory
  7  a sector could not be read

Example
  dmremap read images vg.paths vg0-home > home.img";

pub(crate) const METADATA_ABOUT: &str =
    "Prints the metadata text that images of a group's disks have";

pub(crate) const METADATA_NOTES: &str = "\
PATHS is a list like that of `dmremap map --paths`, of images of the group's
physical volumes. Their heads are read and checked as by `dmremap map images`,
and their text is printed byte by byte, without a check of what it says.

Exit status
  0  the text was printed; it is empty if no head has one
  1  PATHS or a disk was refused
  2  the command line was wrong
  5  the output could not be written
  6  out of memory

Example
  dmremap metadata images vg.paths";

pub(crate) const NAME_ABOUT: &str = "Prints the device-mapper name of a logical volume";

pub(crate) const NAME_NOTES: &str = "\
Hyphens join the parts, and each hyphen within a part is doubled. A part has
letters, digits and `+_.-`, and doesn't begin with a hyphen.
The name has at most 127 bytes. `dmremap help 'source: name'` explains that
message.

Exit status
  0  the name was printed
  1  a part was refused, or the name is too long
  2  the command line was wrong
  5  the output could not be written
  6  out of memory

Example
  dmremap name vg0 lv-1";

pub(crate) const SPLIT_ABOUT: &str = "Prints the parts of such a name";

pub(crate) const SPLIT_NOTES: &str = "\
The group, the volume and, if there is one, the layer are printed with single
spaces between them.

Exit status
  0  the parts were printed
  1  NAME is not the name of a volume
  2  the command line was wrong
  5  the output could not be written
  6  out of memory

Example
  dmremap splitname vg0-lv--1";

pub(crate) const FORMAT_HELP: &str = "The format of FILE";

pub(crate) const FILE_HELP: &str = "The tables, the metadata, or the list of images";

pub(crate) const IMAGES_HELP: &str = "The list of images";

pub(crate) const DISKS_HELP: &str = "The disks and their lengths; not with lvm";

pub(crate) const DEVICE_HELP: &str = "The device; DISKS is left out with lvm and images";

pub(crate) const FROM_HELP: &str = "Begin at this sector of the device";

pub(crate) const COUNT_HELP: &str = "Write only so many sectors";

pub(crate) const STATUS_OPTION_HELP: &str = "At the end, print how full each snapshot's store is";

pub(crate) const BEFORE_HELP: &str = "First play these requests, without answers";

pub(crate) const PATHS_HELP: &str = "Read the stores of snapshots on these disks or images";

pub(crate) const VERSION_HELP: &str = "Print the version";

pub(crate) const VG_HELP: &str = "The volume group";

pub(crate) const LV_HELP: &str = "The logical volume";

pub(crate) const LAYER_HELP: &str = "A layer of the volume, such as `real`";

pub(crate) const NAME_HELP: &str = "A name as `dmsetup ls` shows it";
