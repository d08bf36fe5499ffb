//! What each word of a message means, its causes and what to do, as the manual says it.
//!
//! Made by tools/derive from the DIAGNOSTICS in docs/dmremap.1: don't edit.

use crate::help::HELP;

/// The words that `help` explains, in lines of their own.
pub(crate) const WORDS: &str = "
  again, array, chunk, cycle, deep, differ, disks, empty, ends, error, extents,
  field, foreign, form, gap, header, hyphen, label, length, letter, limit, long,
  magic, many, memory, missing, name, not top, number, order, overlap,
  partitions, range, read, snapshot, split, store, stripe, syntax, text, twice,
  unended, unknown, untidy, version, write";

/// The two parts whose messages an entry explains (the same twice if there is only one), the word, and its text.
pub(crate) type Entry<'a> = ((&'a str, &'a str), &'a str, &'a str);

/// The entries for the first words. There are two tables because the proof of a larger one takes too long.
pub(crate) static FIRST_ENTRIES: [Entry<'static>; 38] = [
    (("store", "store"), "again", AGAIN),
    (("disk", "disk"), "array", ARRAY),
    (("store", "store"), "chunk", CHUNK),
    (("source", "source"), "cycle", CYCLE),
    (("source", "source"), "deep", DEEP),
    (("disk", "disk"), "differ", DIFFER),
    (("words", "words"), "disks", DISKS),
    (("source", "disks"), "empty", SOURCE_EMPTY),
    (("name", "name"), "empty", NAME_EMPTY),
    (("disk", "disk"), "ends", ENDS),
    (("device", "device"), "error", ERROR),
    (("source", "source"), "extents", EXTENTS),
    (("source", "disks"), "field", SOURCE_FIELD),
    (("paths", "paths"), "field", PATHS_FIELD),
    (("disk", "disk"), "foreign", FOREIGN),
    (("request", "before"), "form", FORM),
    (("source", "source"), "gap", SOURCE_GAP),
    (("store", "store"), "gap", STORE_GAP),
    (("disk", "disk"), "header", HEADER),
    (("name", "name"), "hyphen", HYPHEN),
    (("disk", "disk"), "label", LABEL),
    (("request", "before"), "length", LENGTH),
    (("name", "name"), "letter", LETTER),
    (("source", "disks"), "limit", SOURCE_LIMIT),
    (("paths", "paths"), "limit", PATHS_LIMIT),
    (("source", "disks"), "long", SOURCE_LONG),
    (("request", "before"), "long", REQUEST_LONG),
    (("paths", "paths"), "long", PATHS_LONG),
    (("disk", "disk"), "long", DISK_LONG),
    (("name", "name"), "long", NAME_LONG),
    (("store", "store"), "magic", MAGIC),
    (("request", "before"), "many", MANY),
    (("memory", "memory"), "memory", MEMORY),
    (("disk", "disk"), "missing", DISK_MISSING),
    (("store", "store"), "missing", STORE_MISSING),
    (("device", "device"), "missing", DEVICE_MISSING),
    (("source", "disks"), "name", SOURCE_NAME),
    (("paths", "paths"), "name", PATHS_NAME),
];

/// The entries for the other words, and for how to ask for help, which belongs to no part.
pub(crate) static LATER_ENTRIES: [Entry<'static>; 38] = [
    (("request", "request"), "not top", NOT_TOP),
    (("request", "before"), "number", NUMBER),
    (("store", "store"), "order", ORDER),
    (("source", "source"), "overlap", OVERLAP),
    (("disk", "disk"), "partitions", PARTITIONS),
    (("source", "source"), "range", SOURCE_RANGE),
    (("store", "store"), "range", STORE_RANGE),
    (("device", "device"), "range", DEVICE_RANGE),
    (("source", "disks"), "read", SOURCE_READ),
    (("requests", "requests"), "read", REQUESTS_READ),
    (("paths", "paths"), "read", PATHS_READ),
    (("disk", "disk"), "read", DISK_READ),
    (("store", "store"), "read", STORE_READ),
    (("device", "device"), "read", DEVICE_READ),
    (("before", "before"), "read", BEFORE_READ),
    (("source", "source"), "snapshot", SNAPSHOT),
    (("name", "name"), "split", SPLIT),
    (("source", "source"), "store", STORE),
    (("source", "source"), "stripe", STRIPE),
    (("source", "disks"), "syntax", SOURCE_SYNTAX),
    (("paths", "paths"), "syntax", PATHS_SYNTAX),
    (("source", "disks"), "text", SOURCE_TEXT),
    (("paths", "paths"), "text", PATHS_TEXT),
    (("disk", "disk"), "text", DISK_TEXT),
    (("source", "disks"), "twice", SOURCE_TWICE),
    (("paths", "paths"), "twice", PATHS_TWICE),
    (("disk", "disk"), "twice", DISK_TWICE),
    (("request", "before"), "unended", UNENDED),
    (("source", "source"), "unknown", SOURCE_UNKNOWN),
    (("request", "before"), "unknown", REQUEST_UNKNOWN),
    (("paths", "paths"), "unknown", PATHS_UNKNOWN),
    (("device", "device"), "unknown", DEVICE_UNKNOWN),
    (("replay", "replay"), "untidy", UNTIDY),
    (("store", "store"), "version", VERSION),
    (("output", "output"), "write", WRITE),
    (("", ""), "help", HELP),
    (("", ""), "--help", HELP),
    (("", ""), "-h", HELP),
];

const AGAIN: &str = "\
dmremap: store NAME: again
  A chunk occurs twice in the store's list. See `order`.
";

const ARRAY: &str = "\
dmremap: disk NAME: array
  The disk is a member of an array, or was an array by its metadata, which lists
  /dev/md... as its device. Give the array; or if this disk is one leg of a
  mirror, give its data, and name it in PATHS as the metadata names the array:
  the answers are sectors of the array then, and nothing checks that the leg is
  whole and current.
";

const CHUNK: &str = "\
dmremap: store NAME: chunk
  The table has another chunk size than the store. A kernel uses the store's:
  write that into the table, unless the machine printed this table. Bytes 12 to
  15 of the store are its chunk size in sectors, the lowest byte first;
  `od -A n -t u1 -j 12 -N 4` prints them of a file that has only the store.
";

const CYCLE: &str = "\
dmremap: source: cycle at NUMBER
  The device lies on itself, maybe by way of others. Look for a number that was
  replaced by a wrong name.
";

const DEEP: &str = "\
dmremap: source: deep at NUMBER
  Devices are stacked more than 32 deep: list one in the middle as a disk, and
  map in two runs. Or sections of metadata are nested more than 16 deep.
";

const DIFFER: &str = "\
dmremap: disk NAME: differ
  Its metadata differs from that of an earlier area or disk: leave out the disk
  with the older metadata.
";

const DISKS: &str = "\
dmremap: words: disks
  DISKS is missing; or there is DISKS with `lvm` or `images`, or `--paths` with
  `images`; or `read` lacks DEVICE or `--paths`. Add what is missing, or remove
  the argument that is too much.
";

const SOURCE_EMPTY: &str = "\
dmremap: source: empty at NUMBER
dmremap: disks: empty at NUMBER
  A device, a line, a disk or a volume of metadata has no sectors. Delete it.
";

const NAME_EMPTY: &str = "\
dmremap: name: empty
  A part is empty. Look for a variable of the shell that has no value.
";

const ENDS: &str = "\
dmremap: disk NAME: ends
  The disk ends before the metadata says: it was cut short, or is one member of
  an array. Give an image of the whole physical volume.
";

const ERROR: &str = "\
dmremap: device: error at SECTOR
  Its line is `error`, or it lies on a snapshot that is invalid. Read on after
  that line, with `--from`.
";

const EXTENTS: &str = "\
dmremap: source: extents at NUMBER
  Only for metadata. At the line of a physical volume, its extents end after its
  size. lvm2 writes this after `pvresize`; `dmremap-tools lvm2-text` makes a
  copy with a size that fits. At the line of a segment, the metadata is damaged:
  there is a gap, or the segment is empty, isn't a multiple of its stripes, goes
  past the end of a physical volume, or uses extents of an earlier segment. Take
  an older copy, or the copy on another physical volume.
";

const SOURCE_FIELD: &str = "\
dmremap: source: field at NUMBER
dmremap: disks: field at NUMBER
  A value is wrong.
  In a table or a list of disks: a number with a sign, a leading zero, a unit or
  more than 19 digits; an unknown target; too few or too many arguments; a
  snapshot of a kind other than `P`, `N` and `K`. In concise text, also: a MINOR
  that isn't a number, or FLAGS other than `ro` and `rw`. Delete devices with
  other targets, list them in DISKS with their lengths, and name them without
  /dev/mapper/: answers then end at them.
  In metadata: an empty file, as of a command that failed; a field that the
  section at that line lacks, a value of the wrong kind, a 0 where more is
  needed, a number of 2^63 or more, a second section at the top, or a segment of
  an unknown type (raid, thin and others). `dmremap-tools lvm2-text` makes a
  copy without such volumes and what lies on them. If a snapshot is being
  merged, save the metadata again after that.
";

const PATHS_FIELD: &str = "\
dmremap: paths: field at LINE
  A part of a file needs an offset and a length, in this order, both multiples
  of 512. They are in bytes: multiply a partition's first sector, and its number
  of sectors, by 512.
";

const FOREIGN: &str = "\
dmremap: disk NAME: foreign
  The metadata doesn't have its id: leave out this disk, which belongs to
  another group or to none.
";

const FORM: &str = "\
dmremap: request N: form
dmremap: before: form at N
  The line is not four fields with single spaces: R or W, a device, a sector, a
  number of sectors. Or the device is a path: write NAME instead of
  `/dev/mapper/NAME`, and instead of `/dev/VG/LV` what `dmremap name` VG LV
  prints. Delete comments and empty lines.
";

const SOURCE_GAP: &str = "\
dmremap: source: gap at NUMBER
  The line begins after the end of the one before it, or the first one doesn't
  begin at 0. Look for a missing line.
";

const STORE_GAP: &str = "\
dmremap: store NAME: gap
  The store's list ends amid an area that isn't zeros from there on: a part of
  the list is missing, as after a read error. Copy the disk again, or use an
  older image.
";

const HEADER: &str = "\
dmremap: disk NAME: header
  Its label or an area of metadata is damaged.
";

const HYPHEN: &str = "\
dmremap: name: hyphen
  A part begins with a hyphen. Look for a missing word.
";

const LABEL: &str = "\
dmremap: disk NAME: label
  It has no label of a physical volume. Check the offset: it is 512 times a
  partition's first sector.
";

const LENGTH: &str = "\
dmremap: request N: length
dmremap: before: length at N
  The length is 0, or more than 1,048,576 sectors. `dmremap-tools trace --cut`
  cuts the request into several, and `--bytes` also converts bytes to sectors.
";

const LETTER: &str = "\
dmremap: name: letter
  A part has a character other than letters, digits and `+_.-`, or a layer
  begins with an underscore. Give group and volume as two words, without paths.
";

const SOURCE_LIMIT: &str = "\
dmremap: source: limit at NUMBER
dmremap: disks: limit at NUMBER
  A count or a number is too large: see LIMITS. Leave out devices that the
  requests don't need. For metadata whose stores have too many chunks in all,
  `dmremap-tools lvm2-text` makes a copy without those beyond the limit.
";

const PATHS_LIMIT: &str = "\
dmremap: paths: limit at LINE
  With `images`, the list has more than 1,024 lines, as a group has disks at
  most.
";

const SOURCE_LONG: &str = "\
dmremap: source: long
dmremap: disks: long
  The file has more than 1,048,576 bytes. This message has no number. Leave out
  devices that the requests don't need.
";

const REQUEST_LONG: &str = "\
dmremap: request N: long
dmremap: before: long at N
  The line has more than 4096 bytes. Look for a missing newline.
";

const PATHS_LONG: &str = "\
dmremap: paths: long
  The list can't be opened or read, or has more than 1,048,576 bytes.
";

const DISK_LONG: &str = "\
dmremap: disk NAME: long
  Its metadata has more than 1,048,576 bytes.
";

const NAME_LONG: &str = "\
dmremap: name: long
  The name has more than 127 bytes: take shorter parts.
";

const MAGIC: &str = "\
dmremap: store NAME: magic
  The store begins neither like a store nor with zeros. The disk, the offset or
  the table is wrong, or the store is damaged.
";

const MANY: &str = "\
dmremap: request N: many
dmremap: before: many at N
  There are more than 1,000,000,000,000 lines: make several runs.
";

const MEMORY: &str = "\
dmremap: memory
  Out of memory. Allow more, or leave out devices. The stack may also be too
  small: `ulimit -s` has to print 512 or more.
";

const DISK_MISSING: &str = "\
dmremap: disk NAME: missing
  The metadata was written while this disk was missing, so it may be older:
  leave it out.
";

const STORE_MISSING: &str = "\
dmremap: store NAME: missing
  A part of the store lies on a disk that PATHS doesn't name. Add the disk.
";

const DEVICE_MISSING: &str = "\
dmremap: device: missing at SECTOR
  It lies on a disk that PATHS doesn't name. Add the disk, and read on with
  `--from`.
";

const SOURCE_NAME: &str = "\
dmremap: source: name at NUMBER
dmremap: disks: name at NUMBER
  A name is empty, too long, or has a character that isn't allowed, such as one
  that dmsetup writes as `\\x20`. The name of a device has 1 to 127 letters,
  digits and `#+-.:=@_`. The name of a disk has 1 to 255 characters from `!` to
  `~` except comma, semicolon and backslash, and doesn't begin with
  /dev/mapper/. A UUID has up to 128 of the characters of a device's name. Write
  another name, everywhere.
  In metadata, the name of a volume or of its layer would have more than 127
  characters, with hyphens doubled: `dmremap-tools lvm2-text` makes a copy
  without it.
";

const PATHS_NAME: &str = "\
dmremap: paths: name at LINE
  The first field isn't the name of a disk. Write the disk's name as in DISKS, a
  space, and the path.
";

const NOT_TOP: &str = "\
dmremap: request N: not top
  Only `replay` prints this: another device lies on the one that was asked for,
  or no device has its name. Ask for a device that no other lies on, or use
  `map`.
";

const NUMBER: &str = "\
dmremap: request N: number
dmremap: before: number at N
  The sector or the length isn't a number of 1 to 19 digits, or the line ends
  with a carriage return. Delete signs, units, commas, leading zeros and
  carriage returns.
";

const ORDER: &str = "\
dmremap: store NAME: order
  The chunks in the store's list aren't in the order of a kernel, or there are
  more than the store has room for. The store is damaged, was just changed, or
  belongs to another snapshot.
";

const OVERLAP: &str = "\
dmremap: source: overlap at NUMBER
  The line begins before the end of the one before it. Look for a repeated line,
  or for a wrong number.
";

const PARTITIONS: &str = "\
dmremap: disk NAME: partitions
  The disk has a partition table, so it isn't a physical volume itself. Give the
  partition, as `dmremap-tools` `scan` shows it.
";

const SOURCE_RANGE: &str = "\
dmremap: source: range at NUMBER
  The line goes past the end of what it names. Compare its offset and length
  with the length of that disk or device. All are in sectors of 512 bytes:
  divide bytes by 512.
";

const STORE_RANGE: &str = "\
dmremap: store NAME: range
  A chunk in the store's list is past the end of the snapshot. See `order`.
";

const DEVICE_RANGE: &str = "\
dmremap: device: range
  `--from` or `--count` goes past the end of the device.
";

const SOURCE_READ: &str = "\
dmremap: source: read
dmremap: disks: read
  The file can't be opened or read: it isn't there, it is a folder, or you may
  not read it. `cat FILE > /dev/null` shows why. This message has no number.
";

const REQUESTS_READ: &str = "\
dmremap: requests: read
  The standard input is closed, or can't be read, or would have to be waited for
  though it doesn't block: look at what writes it, or give a file.
";

const PATHS_READ: &str = "\
dmremap: paths: read
  The list can't be opened or read, or has more than 1,048,576 bytes.
";

const DISK_READ: &str = "\
dmremap: disk NAME: read
  The image isn't there, is a folder, can't be read, or ends within its head.
  Check that it is whole, and that you may read it. Its path is all that follows
  the first space of its line in PATHS, taken literally: write no `~`, quotes,
  second space or carriage return.
";

const STORE_READ: &str = "\
dmremap: store NAME: read
  An image of a disk of this store can't be opened or read, or ends too early.
  Check that the image is whole, and that you may read it; of its path, see
  `disk: read`.
";

const DEVICE_READ: &str = "\
dmremap: device: read at SECTOR
  The image of its disk can't be opened or read there, or ends before it. If its
  path is wrong, see `disk: read`. Copy the disk with a tool that tries bad
  sectors again, such as `ddrescue`, or read on after it with `--from`.
";

const BEFORE_READ: &str = "\
dmremap: before: read
  The file of `--before` can't be opened or read.
";

const SNAPSHOT: &str = "\
dmremap: source: snapshot at NUMBER
  A snapshot or snapshot-origin line isn't the only line of its device, or its
  length differs from the origin's, or the chunk isn't a power of two from 1 to
  1024. If the device has other lines, give the snapshot its own device, and
  replace its line by a linear line to that device. If an origin was extended
  under its snapshot, make a linear device of the snapshot's length on it, and
  name that device as the origin. In metadata, also: an origin or a store that
  is itself a snapshot, and a store that is also an origin or the store of
  another snapshot. `dmremap-tools lvm2-text` makes a copy without the snapshot.
";

const SPLIT: &str = "\
dmremap: name: split
  No group and volume give that name: perhaps the device isn't LVM's. Count the
  hyphens: each hyphen of a part is doubled. Give the name without /dev/mapper/;
  `dmremap name` VG LV makes it of VG/LV.
";

const STORE: &str = "\
dmremap: source: store at NUMBER
  A store has to be a disk, or a writable device of linear and striped lines,
  over disks or over such devices. In a table, list the store as a disk, or
  delete the snapshot. For metadata, `dmremap-tools lvm2-text` makes a copy
  without it.
";

const STRIPE: &str = "\
dmremap: source: stripe at NUMBER
  The line doesn't divide into stripes. It needs 1 to 128 columns, and chunks of
  1 to 4,294,967,295 sectors. Its length has to be a multiple of the number of
  columns, and the share of each column a multiple of the chunk.
";

const SOURCE_SYNTAX: &str = "\
dmremap: source: syntax at NUMBER
dmremap: disks: syntax at NUMBER
  The form of the text is wrong.
  At line 1, mostly FORMAT is wrong for this file, or FILE and DISKS are
  swapped.
  In a table, a line is NAME: START LEN TYPE ARGS, with single spaces and a
  newline at its end. Put NAME: in front of what `dmsetup table DEVICE` printed.
  In a list of disks, a line is a name and a length. In concise text, a device
  has four commas before its first line, no semicolon follows the last device,
  and only the end may have a newline. In metadata, a bracket, comma, string or
  key is missing or superfluous, or a number has a sign or a decimal point, as
  in `read_ahead = -1`. Or lines end with carriage returns, or the file begins
  with a byte-order mark. `dmremap-tools lvm2-text` makes a copy without such
  numbers and bytes. If NUMBER is the number of lines plus one, the end of the
  text is missing.
";

const PATHS_SYNTAX: &str = "\
dmremap: paths: syntax at LINE
  The line isn't a disk, a space and a path, or it is empty, or no newline ends
  it.
";

const SOURCE_TEXT: &str = "\
dmremap: source: text at NUMBER
dmremap: disks: text at NUMBER
  A byte isn't allowed: in tables a tab, a carriage return or a letter outside
  ASCII; in metadata, anything but UTF-8. In a table, `tr -d '\\r'` removes
  carriage returns; replace tabs by spaces, and rename what isn't ASCII. For
  metadata, `dmremap-tools lvm2-text` makes a copy without such bytes. Metadata,
  which has tabs, needs the FORMAT `lvm`. Unpack a compressed file first.
";

const PATHS_TEXT: &str = "\
dmremap: paths: text at LINE
  The line isn't UTF-8, or has a NUL, as an image has that was given for PATHS.
  Give a list of lines NAME PATH, not an image. If a path isn't UTF-8, rename
  the image, or make a link to it.
";

const DISK_TEXT: &str = "\
dmremap: disk NAME: text
  Its metadata has a wrong checksum or end: it is damaged, or was just changed.
";

const SOURCE_TWICE: &str = "\
dmremap: source: twice at NUMBER
dmremap: disks: twice at NUMBER
  A device, a disk or a key of the metadata occurs twice. In a table, keep the
  lines of a device together, or rename one of two devices. In other texts,
  delete one of the two. For metadata, `dmremap-tools lvm2-text` makes a copy
  with the key that lvm2 uses. With `images`, the text may give a name of PATHS
  to a disk that PATHS lacks: write another name there.
";

const PATHS_TWICE: &str = "\
dmremap: paths: twice at LINE
  An earlier line names the same disk. Delete one of them.
";

const DISK_TWICE: &str = "\
dmremap: disk NAME: twice
  An earlier disk has the same id: leave out the copy, or one leg of a mirror.
";

const UNENDED: &str = "\
dmremap: request N: unended
dmremap: before: unended at N
  The last line has no newline. Add one, unless the line was cut off.
";

const SOURCE_UNKNOWN: &str = "\
dmremap: source: unknown at NUMBER
  The line names a disk or device that isn't there. Add the disk to DISKS, or
  the device to FILE. Replace the number of a device of FILE by
  `/dev/mapper/NAME`; `dmremap-tools machine` does that for a whole machine. In
  metadata, a stripe names a physical volume, or a snapshot names a volume, that
  the group doesn't have: take an older copy.
";

const REQUEST_UNKNOWN: &str = "\
dmremap: request N: unknown
dmremap: before: unknown at N
  No device of FILE has that name. `dmremap table` prints the names. A request
  can't name a disk.
";

const PATHS_UNKNOWN: &str = "\
dmremap: paths: unknown at LINE
  No disk has that name. Take a name from DISKS or, with `lvm`, from the
  metadata.
";

const DEVICE_UNKNOWN: &str = "\
dmremap: device: unknown
  No device of FILE has the name DEVICE. `dmremap table` prints the names.
";

const UNTIDY: &str = "\
dmremap: replay: untidy
  Two lines of the tables use the same sectors. What is refused of PATHS and of
  stores comes first. `dmremap check` prints such a pair; use `map` if that is
  intended.
";

const VERSION: &str = "\
dmremap: store NAME: version
  The version of the store isn't 1, the only one that dmremap knows. Check the
  disk, the offset and the table.
";

const WRITE: &str = "\
dmremap: output: write
  The output can't be written: the disk is full, the reader of a pipe has gone,
  or it would have to be waited for though the output doesn't block. Make room,
  or find out why the reader ended.
";
