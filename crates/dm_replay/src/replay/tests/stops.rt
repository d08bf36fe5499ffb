//! Halts in replays of stacks without a clash, and the lines of the answers.
//!
//! All cases are in one text, so that a file with many more can be read in the same way:
//! `tests/outside/program/halts.py` writes that file, and works out the answers here by the plain rules. A `#`
//! separates cases, and a `|` the parts of each: a title, devices as concise text, disks, requests, and the lines of
//! the answers. A request is preceded by the number of units after which it is halted, and then isn't answered, or by a
//! hyphen.

pub(crate) static STOPS: &str = "\
The first chunk of a store is torn, and then written again.
|s,,,,0 8 snapshot base cow P 4
|base 8
cow 32
|2 W s 5 2
- R s 4 4
- W s 6 1
- R s 0 8
|2 old base 4 4
3 wrote 3 6 1
4 old base 0 6
4 wrote 3 6 1
4 old base 7 1
#The second chunk of a write is torn, and the first is there.
|s,,,,0 12 snapshot base cow P 4
|base 12
cow 32
|8 W s 2 6
- R s 0 12
- W s 9 1
- R s 0 12
|2 old base 0 2
2 wrote 1 2 2
2 old base 4 8
3 wrote 3 9 1
4 old base 0 2
4 wrote 1 2 2
4 old base 4 5
4 wrote 3 9 1
4 old base 10 2
#Two stops in a row: both left the same place torn, and the next chunk takes it.
|s,,,,0 12 snapshot base cow P 4
|base 12
cow 12
|4 W s 0 1
3 W s 4 1
- W s 8 1
- R s 0 12
- W s 0 1
- R s 0 12
|3 wrote 3 8 1
4 old base 0 8
4 wrote 3 8 1
4 old base 9 3
5 error 1
6 error 12
#A transient store, whose only place is torn, taken, and then wanted once more.
|s,,,,0 8 snapshot base cow N 4
|base 8
cow 4
|4 W s 3 3
- W s 5 1
- R s 0 8
0 W s 0 1
- R s 0 8
1 W s 0 1
- R s 0 8
|2 wrote 2 5 1
3 old base 0 5
3 wrote 2 5 1
3 old base 6 2
5 old base 0 5
5 wrote 2 5 1
5 old base 6 2
7 error 8
#A keeping store: a stop among its errors, which change nothing.
|s,,,,0 12 snapshot base cow K 4
|base 12
cow 12
|6 W s 2 4
- R s 0 12
8 W s 2 6
- R s 0 12
|2 old base 0 2
2 wrote 1 2 2
2 old base 4 8
4 old base 0 2
4 wrote 3 2 2
4 old base 4 8
#Zeros that are filled in, and the end of a table that cuts a chunk short.
|o,,,,0 3 linear base 0,3 3 zero;s,,,,0 6 snapshot /dev/mapper/o cow P 4
|base 3
cow 32
|3 W s 1 4
- R s 0 6
6 W s 1 4
- R s 0 6
2 W s 5 1
- R s 0 6
3 W s 5 1
- R s 0 6
|2 old base 0 3
2 zero 3
4 old base 0 1
4 wrote 3 1 2
4 zero 3
6 old base 0 1
6 wrote 3 1 2
6 zero 3
8 old base 0 1
8 wrote 3 1 2
8 zero 2
8 wrote 7 5 1
#Errors below, which lose the snapshot where the stop doesn't come before.
|o,,,,0 5 linear base 0,5 3 error;s,,,,0 8 snapshot /dev/mapper/o cow P 4
|base 5
cow 32
|5 W s 3 2
- R s 0 8
6 W s 3 2
- R s 0 8
|2 old base 0 3
2 wrote 1 3 1
2 old base 4 1
2 error 3
4 error 8
#Two snapshots of one disk, halted in turn.
|s,,,,0 8 snapshot base c1 P 4;t,,,,0 8 snapshot base c2 N 2
|base 8
c1 32
c2 8
|3 W s 1 2
1 W t 1 2
- R s 0 4
- R t 0 4
5 W s 1 2
6 W t 1 3
- R s 0 4
- R t 0 4
|3 old base 0 4
4 old base 0 4
7 old base 0 1
7 wrote 5 1 1
7 old base 2 2
8 old base 0 1
8 wrote 6 1 2
8 old base 3 1
#A snapshot of a snapshot, whose copies come from two places.
|s,,,,0 8 snapshot base c1 P 2;t,,,,0 8 snapshot /dev/mapper/s c2 K 4
|base 8
c1 32
c2 32
|3 W t 3 2
- R t 0 8
10 W t 3 2
- R t 0 8
- W t 4 2
- R t 0 8
|2 old base 0 8
4 old base 0 3
4 wrote 3 3 2
4 old base 5 3
5 wrote 5 4 2
6 old base 0 3
6 wrote 3 3 1
6 wrote 5 4 2
6 old base 6 2
#A snapshot of a snapshot of a snapshot.
|s,,,,0 8 snapshot base c1 P 4;t,,,,0 8 snapshot /dev/mapper/s c2 N 2;u,,,,0 8 snapshot /dev/mapper/t c3 K 4
|base 8
c1 32
c2 8
c3 12
|4 W u 0 2
- R u 0 8
5 W u 0 2
- R u 0 8
2 W u 4 1
- R u 0 8
|2 old base 0 8
4 wrote 3 0 1
4 old base 1 7
6 wrote 3 0 1
6 old base 1 7
#An origin with two snapshots, halted among the copies of the first.
|o,,,,0 8 snapshot-origin base;s,,,,0 8 snapshot base c1 P 4;t,,,,0 8 snapshot base c2 P 2
|base 8
c1 32
c2 32
|3 W o 2 1
- R o 0 8
- R s 0 8
- R t 0 8
- W o 2 1
- R o 0 8
- R s 0 8
- R t 0 8
|2 old base 0 8
3 old base 0 8
4 old base 0 8
5 wrote 5 2 1
6 old base 0 2
6 wrote 5 2 1
6 old base 3 5
7 old base 0 8
8 old base 0 8
#The same, halted where the first is served and the second is not.
|o,,,,0 8 snapshot-origin base;s,,,,0 8 snapshot base c1 P 4;t,,,,0 8 snapshot base c2 N 2
|base 8
c1 32
c2 8
|5 W o 2 1
- R s 0 8
- W s 2 1
- W o 2 1
- R o 0 8
- R s 0 8
- R t 0 8
|2 old base 0 8
3 wrote 3 2 1
4 wrote 4 2 1
5 old base 0 2
5 wrote 4 2 1
5 old base 3 5
6 old base 0 2
6 wrote 3 2 1
6 old base 3 5
7 old base 0 8
#The same, halted before its first write, and then among the writes.
|o,,,,0 8 snapshot-origin base;s,,,,0 8 snapshot base c1 K 4;t,,,,0 8 snapshot base c2 P 2
|base 8
c1 32
c2 32
|6 W o 2 3
- R o 0 8
- R s 0 8
2 W o 2 2
- R o 0 8
- R s 0 8
- R t 0 8
|2 old base 0 8
3 old base 0 8
5 old base 0 8
6 old base 0 8
7 old base 0 8
#The same with a store that has no place, which is lost only once the write comes to it.
|o,,,,0 8 snapshot-origin base;s,,,,0 8 snapshot base c1 P 4;t,,,,0 8 snapshot base c2 N 4
|base 8
c1 12
c2 8
|9 W o 3 2
- R s 0 8
- R t 0 8
5 W o 3 2
- R o 0 8
- R s 0 8
- R t 0 8
|2 old base 0 8
3 old base 0 8
5 old base 0 3
5 wrote 4 3 1
5 old base 4 4
6 old base 0 8
7 old base 0 8
#An origin over a snapshot: the snapshot above it is served, and then its own chunk is taken.
|s,,,,0 8 snapshot base c1 P 4;o,,,,0 8 snapshot-origin /dev/mapper/s;t,,,,0 8 snapshot /dev/mapper/s c2 P 2
|base 8
c1 32
c2 32
|4 W o 1 1
- R o 0 8
- R t 0 8
6 W o 1 1
- R o 0 8
- R t 0 8
7 W o 1 1
- R o 0 8
- R t 0 8
|2 old base 0 8
3 old base 0 8
5 old base 0 8
6 old base 0 8
8 old base 0 1
8 wrote 7 1 1
8 old base 2 6
9 old base 0 8
#Stripes below an origin, and a chunk that lies on both.
|r,,,,0 8 striped 2 2 sda 0 sdb 0;o,,,,0 8 snapshot-origin /dev/mapper/r;s,,,,0 8 snapshot /dev/mapper/r cow P 4
|sda 4
sdb 4
cow 32
|3 W o 1 2
- R o 0 8
- R s 0 8
6 W o 1 4
- R o 0 8
- R s 0 8
9 W o 1 4
- R o 0 8
- R s 0 8
|2 old sda 0 2
2 old sdb 0 2
2 old sda 2 2
2 old sdb 2 2
3 old sda 0 2
3 old sdb 0 2
3 old sda 2 2
3 old sdb 2 2
5 old sda 0 1
5 wrote 4 1 2
5 old sdb 1 1
5 old sda 2 2
5 old sdb 2 2
6 old sda 0 2
6 old sdb 0 2
6 old sda 2 2
6 old sdb 2 2
8 old sda 0 1
8 wrote 7 1 4
8 old sda 3 1
8 old sdb 2 2
9 old sda 0 2
9 old sdb 0 2
9 old sda 2 2
9 old sdb 2 2
#A store on stripes.
|c,,,,0 32 striped 2 2 sda 0 sdb 0;s,,,,0 8 snapshot base /dev/mapper/c P 4
|base 8
sda 16
sdb 16
|3 W s 1 2
- R s 0 8
5 W s 1 2
- R s 0 8
|2 old base 0 8
4 old base 0 1
4 wrote 3 1 1
4 old base 2 6
#Stripes, zeros and errors of one device, and stops in a row.
|r,,,,0 4 striped 2 1 sda 0 sdb 0;a,,,,0 3 linear /dev/mapper/r 1,3 2 zero,5 2 error,7 2 linear base 0
|sda 2
sdb 2
base 2
|2 W a 0 9
8 W a 0 9
- R a 0 9
0 W a 0 9
9 W a 0 9
- R a 0 9
|3 wrote 2 0 3
3 zero 2
3 error 2
3 wrote 2 7 1
3 old base 1 1
6 wrote 5 0 3
6 zero 2
6 error 2
6 wrote 5 7 2
#Reads that are halted, and requests that pass the end.
|s,,,,0 6 snapshot base cow P 4
|base 6
cow 32
|- W s 0 1
1 R s 0 6
0 R s 0 6
3 W s 3 4
9 W s 6 1
- R s 0 6
5 W s 4 2
- R s 0 6
- R s 5 2
|1 wrote 1 0 1
6 wrote 1 0 1
6 old base 1 5
8 wrote 1 0 1
8 old base 1 3
8 wrote 7 4 2
9 error 2
#More units than a request has.
|s,,,,0 4 snapshot base cow P 4;b,,,,0 2 linear sda 1
|base 4
cow 12
sda 4
|18446744073709551615 W s 1 2
3 W b 0 2
- R s 0 4
- R b 0 2
6 W s 0 1
2 R s 0 4
- R s 0 4
|3 old base 0 1
3 wrote 1 1 2
3 old base 3 1
4 wrote 2 0 2
7 wrote 5 0 1
7 wrote 1 1 2
7 old base 3 1
";
