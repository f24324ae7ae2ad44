//! Sessions and the texts of their histories, as they stand among the examples.

/// A session, and what it prints.
#[derive(Clone, Copy)]
pub struct Session {
    /// The size of grains in KiB, as the program is told it.
    pub grain: &'static str,
    /// The session.
    pub lines: &'static [u8],
    /// The text of its history.
    pub text: &'static [u8],
}

/// A volume is made, written and read.
pub const FIRST_VOLUME: Session = Session {
    grain: "64",
    lines: b"mkvdisk -name A -size 1
write A 0 1 5a
read A 0 2
",
    text: b"0 main mkvdisk -name A -size 1 -> Virtual Disk, id [0], successfully created
1 main write 0 0 1 5a -> ok
2 main read 0 0 2 -> data 512*5a,512*00
",
};

/// A copy is done, stopped while others depend on it, and reported.
pub const COMPLETE_STOPPED: Session = Session {
    grain: "64",
    lines: b"mkvdisk -name A -size 64 -unit kb
mkvdisk -name B -size 64 -unit kb
mkvdisk -name C -size 64 -unit kb
mkvdisk -name D -size 64 -unit kb
write A 0 1 11
mkfcmap -source A -target B -copyrate 50
mkfcmap -source B -target C -copyrate 0
mkfcmap -source C -target D -copyrate 0
startfcmap -prep 0
startfcmap -prep 1
startfcmap -prep 2
stopfcmap -split fcmap0
advance -seconds 1
lsfcmap -delim : 0
stopfcmap fcmap0
lsfcmapdependentmaps -delim : fcmap0
lsvdisk -delim :
write B 0 1 33
read C 0 1
lsfcmap -delim : fcmap0
lsfcmapdependentmaps -delim : fcmap1
",
    text: b"0 main mkvdisk -name A -size 64 -unit kb -> Virtual Disk, id [0], successfully created
1 main mkvdisk -name B -size 64 -unit kb -> Virtual Disk, id [1], successfully created
2 main mkvdisk -name C -size 64 -unit kb -> Virtual Disk, id [2], successfully created
3 main mkvdisk -name D -size 64 -unit kb -> Virtual Disk, id [3], successfully created
4 main write 0 0 1 11 -> ok
5 main mkfcmap -source A -target B -copyrate 50 -> FlashCopy Mapping, id [0], successfully created
6 main mkfcmap -source B -target C -copyrate 0 -> FlashCopy Mapping, id [1], successfully created
7 main mkfcmap -source C -target D -copyrate 0 -> FlashCopy Mapping, id [2], successfully created
8 main startfcmap -prep 0 -> ok
9 main startfcmap -prep 1 -> ok
10 main startfcmap -prep 2 -> ok
11 main stopfcmap -split fcmap0 -> refused not complete 0 1
12 main advance -seconds 1 -> ok
13 main copy 0 0 -> moved 0 0
14 main lsfcmap -delim : 0 -> rows 16
id:0
name:fcmap0
source_vdisk_id:0
source_vdisk_name:A
target_vdisk_id:1
target_vdisk_name:B
group_id:
group_name:
status:copying
progress:100
copy_rate:50
clean_progress:0
incremental:off
partner_FC_id:
partner_FC_name:
restoring:no
15 main stopfcmap fcmap0 -> ok
16 main lsfcmapdependentmaps -delim : fcmap0 -> rows 3
fc_id:fc_name
1:fcmap1
2:fcmap2
17 main lsvdisk -delim : -> rows 5
id:name:status:capacity:fc_map_count
0:A:online:65536:1
1:B:online:65536:2
2:C:online:65536:2
3:D:online:65536:1
18 main write 1 0 1 33 -> ok
19 main read 2 0 1 -> data 512*11
20 main lsfcmap -delim : fcmap0 -> rows 16
id:0
name:fcmap0
source_vdisk_id:0
source_vdisk_name:A
target_vdisk_id:1
target_vdisk_name:B
group_id:
group_name:
status:idle_or_copied
progress:100
copy_rate:50
clean_progress:100
incremental:off
partner_FC_id:
partner_FC_name:
restoring:no
21 main lsfcmapdependentmaps -delim : fcmap1 -> rows 2
fc_id:fc_name
2:fcmap2
",
};

/// A copy is restored, and its target written.
pub const RESTORED_WRITE: Session = Session {
    grain: "64",
    lines: b"mkvdisk -name A -size 64 -unit kb
mkvdisk -name B -size 64 -unit kb
write A 0 1 11
mkfcmap -source A -target B -copyrate 0
startfcmap -prep fcmap0
mkfcmap -source B -target A -copyrate 50
startfcmap -prep fcmap1
startfcmap -prep -restore fcmap1
advance -seconds 1
write A 0 1 22
read B 0 1
read A 0 1
",
    text: b"0 main mkvdisk -name A -size 64 -unit kb -> Virtual Disk, id [0], successfully created
1 main mkvdisk -name B -size 64 -unit kb -> Virtual Disk, id [1], successfully created
2 main write 0 0 1 11 -> ok
3 main mkfcmap -source A -target B -copyrate 0 -> FlashCopy Mapping, id [0], successfully created
4 main startfcmap -prep fcmap0 -> ok
5 main mkfcmap -source B -target A -copyrate 50 -> FlashCopy Mapping, id [1], successfully created
6 main startfcmap -prep fcmap1 -> refused target is source 0
7 main startfcmap -prep -restore fcmap1 -> ok
8 main advance -seconds 1 -> ok
9 main copy 1 0 -> moved 1 0
10 main write 0 0 1 22 -> ok
11 main read 1 0 1 -> data 512*11
12 main read 0 0 1 -> data 512*22
",
};

/// A copy is done and started again: the second start settles what the copy left, and is then decided.
pub const STARTED_AGAIN: Session = Session {
    grain: "64",
    lines: b"mkvdisk -name A -size 64 -unit kb
mkvdisk -name B -size 64 -unit kb
write A 0 1 11
mkfcconsistgrp -name g
mkfcmap -source A -target B -consistgrp g -copyrate 50
startfcconsistgrp -prep g
advance -seconds 1
startfcconsistgrp -prep g
write A 0 1 22
read B 0 1
lsfcmap -delim :
",
    text: b"0 main mkvdisk -name A -size 64 -unit kb -> Virtual Disk, id [0], successfully created
1 main mkvdisk -name B -size 64 -unit kb -> Virtual Disk, id [1], successfully created
2 main write 0 0 1 11 -> ok
3 main mkfcconsistgrp -name g -> FlashCopy Consistency Group, id [1], successfully created
4 main mkfcmap -source A -target B -consistgrp g -copyrate 50 -> FlashCopy Mapping, id [0], successfully created
5 main startfcconsistgrp -prep g -> ok
6 main advance -seconds 1 -> ok
7 main copy 0 0 -> moved 0 0
8 main startfcconsistgrp -prep g -> ok
9 main write 0 0 1 22 -> ok
10 main read 1 0 1 -> data 512*11
11 main lsfcmap -delim : -> rows 2
id:name:source_vdisk_id:source_vdisk_name:target_vdisk_id:target_vdisk_name:group_id:group_name:status:progress:copy_rate:clean_progress:incremental:partner_FC_id:partner_FC_name:restoring
0:fcmap0:0:A:1:B:1:g:idle_or_copied:100:50:100:off:::no
",
};

/// Thin volumes, a grain of which takes memory when it is first written.
pub const THIN_WRITTEN: Session = Session {
    grain: "64",
    lines: b"mkvdisk -name A -size 128 -unit kb -thin
mkvdisk -name B -size 128 -unit kb -thin
mkvdisk -name C -size 128 -unit kb -thin
write A 0 1 11
mkfcmap -source A -target B -copyrate 50
mkfcmap -source B -target C -copyrate 0
startfcmap -prep 0
startfcmap -prep 1
write A 0 1 22
write B 128 128 33
read C 0 1
advance -seconds 1
read B 0 1
",
    text: b"0 main mkvdisk -name A -size 128 -unit kb -thin -> Virtual Disk, id [0], successfully created
1 main mkvdisk -name B -size 128 -unit kb -thin -> Virtual Disk, id [1], successfully created
2 main mkvdisk -name C -size 128 -unit kb -thin -> Virtual Disk, id [2], successfully created
3 main write 0 0 1 11 -> ok
4 main mkfcmap -source A -target B -copyrate 50 -> FlashCopy Mapping, id [0], successfully created
5 main mkfcmap -source B -target C -copyrate 0 -> FlashCopy Mapping, id [1], successfully created
6 main startfcmap -prep 0 -> ok
7 main startfcmap -prep 1 -> ok
8 main write 0 0 1 22 -> ok
9 main write 1 128 128 33 -> ok
10 main read 2 0 1 -> data 512*11
11 main advance -seconds 1 -> ok
12 main clean 0 0 -> moved 0 0
13 main read 1 0 1 -> data 512*11
",
};

/// A snapshot is taken and read; another is undone, since its mapping's name is taken; and a third is refused.
pub const SNAPSHOTS: Session = Session {
    grain: "64",
    lines: b"mkvdisk -name A -size 128 -unit kb -thin
write A 0 1 11
mkpreset -source A -preset snapshot
write A 0 1 22
read vdisk1 0 1
mkpreset -source A -preset snapshot -name fcmap0
mkpreset -source B -preset snapshot
lsvdisk -delim :
",
    text: b"0 main mkvdisk -name A -size 128 -unit kb -thin -> Virtual Disk, id [0], successfully created
1 main write 0 0 1 11 -> ok
2 main mkvdisk -size 128 -unit kb -thin -> Virtual Disk, id [1], successfully created
3 main mkfcmap -source A -target 1 -copyrate 0 -cleanrate 0 -> FlashCopy Mapping, id [0], successfully created
4 main startfcmap -prep 0 -> ok
5 main write 0 0 1 22 -> ok
6 main read 1 0 1 -> data 512*11
7 main mkvdisk -name fcmap0 -size 128 -unit kb -thin -> Virtual Disk, id [2], successfully created
8 main mkfcmap -source A -target 2 -name fcmap0 -copyrate 0 -cleanrate 0 -> refused name taken 0
9 main rmvdisk 2 -> ok
10 main mkpreset -source B -preset snapshot -> refused no such vdisk
11 main lsvdisk -delim : -> rows 3
id:name:status:capacity:fc_map_count
0:A:online:131072:1
1:vdisk1:online:131072:1
",
};

/// An incremental copy is done, both volumes are written, and it is started again.
pub const INCREMENTAL: Session = Session {
    grain: "64",
    lines: b"mkvdisk -name A -size 256 -unit kb
mkvdisk -name B -size 256 -unit kb
mkfcmap -source A -target B -incremental -copyrate 50
startfcmap -prep fcmap0
advance -seconds 1
lsfcmapprogress -delim : 0
write A 0 1 22
write B 384 1 33
startfcmap -prep 0
lsfcmapprogress -delim : 0
read B 0 1
read B 384 1
",
    text: b"0 main mkvdisk -name A -size 256 -unit kb -> Virtual Disk, id [0], successfully created
1 main mkvdisk -name B -size 256 -unit kb -> Virtual Disk, id [1], successfully created
2 main mkfcmap -source A -target B -copyrate 50 -incremental -> FlashCopy Mapping, id [0], successfully created
3 main startfcmap -prep fcmap0 -> ok
4 main advance -seconds 1 -> ok
5 main copy 0 0 -> moved 0 0
6 main copy 0 1 -> moved 0 1
7 main copy 0 2 -> moved 0 2
8 main copy 0 3 -> moved 0 3
9 main lsfcmapprogress -delim : 0 -> rows 2
id:progress
0:100
10 main write 0 0 1 22 -> ok
11 main write 1 384 1 33 -> ok
12 main startfcmap -prep 0 -> ok
13 main lsfcmapprogress -delim : 0 -> rows 2
id:progress
0:50
14 main read 1 0 1 -> data 512*22
15 main read 1 384 1 -> data 512*00
",
};

/// A night's work: a backup, a change, a restore, and the next backup, which is incremental.
pub const NIGHTS_WORK: Session = Session {
    grain: "256",
    lines: b"mkvdisk -name DB -size 8
mkvdisk -name DB_bk -size 8
write DB 0 8192 aa
mkfcmap -source DB -target DB_bk -name nightly -incremental
startfcmap -prep nightly
advance -seconds 60
lsfcmap -delim :
write DB 0 1 bb
mkfcmap -source DB_bk -target DB -name back -copyrate 50
startfcmap -prep -restore back
read DB 0 1
advance -seconds 60
startfcmap -prep nightly
lsfcmapprogress -delim : nightly
",
    text: b"0 main mkvdisk -name DB -size 8 -> Virtual Disk, id [0], successfully created
1 main mkvdisk -name DB_bk -size 8 -> Virtual Disk, id [1], successfully created
2 main write 0 0 512 aa -> ok
3 main write 0 512 512 aa -> ok
4 main write 0 1024 512 aa -> ok
5 main write 0 1536 512 aa -> ok
6 main write 0 2048 512 aa -> ok
7 main write 0 2560 512 aa -> ok
8 main write 0 3072 512 aa -> ok
9 main write 0 3584 512 aa -> ok
10 main write 0 4096 512 aa -> ok
11 main write 0 4608 512 aa -> ok
12 main write 0 5120 512 aa -> ok
13 main write 0 5632 512 aa -> ok
14 main write 0 6144 512 aa -> ok
15 main write 0 6656 512 aa -> ok
16 main write 0 7168 512 aa -> ok
17 main write 0 7680 512 aa -> ok
18 main mkfcmap -source DB -target DB_bk -name nightly -incremental -> FlashCopy Mapping, id [0], successfully created
19 main startfcmap -prep nightly -> ok
20 main advance -seconds 60 -> ok
21 main copy 0 0 -> moved 0 0
22 main copy 0 1 -> moved 0 1
23 main copy 0 2 -> moved 0 2
24 main copy 0 3 -> moved 0 3
25 main copy 0 4 -> moved 0 4
26 main copy 0 5 -> moved 0 5
27 main copy 0 6 -> moved 0 6
28 main copy 0 7 -> moved 0 7
29 main copy 0 8 -> moved 0 8
30 main copy 0 9 -> moved 0 9
31 main copy 0 10 -> moved 0 10
32 main copy 0 11 -> moved 0 11
33 main copy 0 12 -> moved 0 12
34 main copy 0 13 -> moved 0 13
35 main copy 0 14 -> moved 0 14
36 main copy 0 15 -> moved 0 15
37 main copy 0 16 -> moved 0 16
38 main copy 0 17 -> moved 0 17
39 main copy 0 18 -> moved 0 18
40 main copy 0 19 -> moved 0 19
41 main copy 0 20 -> moved 0 20
42 main copy 0 21 -> moved 0 21
43 main copy 0 22 -> moved 0 22
44 main copy 0 23 -> moved 0 23
45 main copy 0 24 -> moved 0 24
46 main copy 0 25 -> moved 0 25
47 main copy 0 26 -> moved 0 26
48 main copy 0 27 -> moved 0 27
49 main copy 0 28 -> moved 0 28
50 main copy 0 29 -> moved 0 29
51 main copy 0 30 -> moved 0 30
52 main copy 0 31 -> moved 0 31
53 main lsfcmap -delim : -> rows 2
id:name:source_vdisk_id:source_vdisk_name:target_vdisk_id:target_vdisk_name:group_id:group_name:status:progress:copy_rate:clean_progress:incremental:partner_FC_id:partner_FC_name:restoring
0:nightly:0:DB:1:DB_bk:::idle_or_copied:100:50:100:on:::no
54 main write 0 0 1 bb -> ok
55 main mkfcmap -source DB_bk -target DB -name back -copyrate 50 -> FlashCopy Mapping, id [1], successfully created
56 main startfcmap -prep -restore back -> ok
57 main read 0 0 1 -> data 512*aa
58 main advance -seconds 60 -> ok
59 main copy 1 0 -> moved 1 0
60 main copy 1 1 -> moved 1 1
61 main copy 1 2 -> moved 1 2
62 main copy 1 3 -> moved 1 3
63 main copy 1 4 -> moved 1 4
64 main copy 1 5 -> moved 1 5
65 main copy 1 6 -> moved 1 6
66 main copy 1 7 -> moved 1 7
67 main copy 1 8 -> moved 1 8
68 main copy 1 9 -> moved 1 9
69 main copy 1 10 -> moved 1 10
70 main copy 1 11 -> moved 1 11
71 main copy 1 12 -> moved 1 12
72 main copy 1 13 -> moved 1 13
73 main copy 1 14 -> moved 1 14
74 main copy 1 15 -> moved 1 15
75 main copy 1 16 -> moved 1 16
76 main copy 1 17 -> moved 1 17
77 main copy 1 18 -> moved 1 18
78 main copy 1 19 -> moved 1 19
79 main copy 1 20 -> moved 1 20
80 main copy 1 21 -> moved 1 21
81 main copy 1 22 -> moved 1 22
82 main copy 1 23 -> moved 1 23
83 main copy 1 24 -> moved 1 24
84 main copy 1 25 -> moved 1 25
85 main copy 1 26 -> moved 1 26
86 main copy 1 27 -> moved 1 27
87 main copy 1 28 -> moved 1 28
88 main copy 1 29 -> moved 1 29
89 main copy 1 30 -> moved 1 30
90 main copy 1 31 -> moved 1 31
91 main startfcmap -prep nightly -> ok
92 main lsfcmapprogress -delim : nightly -> rows 2
id:progress
0:100
",
};
