//! The session `together`.

/// Two volumes and a prepared group, and a block: two hosts, an administrator who starts the group, a copier and a cleaner. The
/// line behind the block reads from the copy what its start left there. It stands here and not among the examples, since an
/// example has one history, and this session has one of many.
pub const TOGETHER: &[u8] = b"mkvdisk -name A -size 512 -unit kb
mkvdisk -name B -size 512 -unit kb
mkfcconsistgrp
mkfcmap -source A -target B -consistgrp 1
prestartfcconsistgrp 1
together
actor h1 host
write A 0 1 22
read A 0 1
actor h2 host
read A 128 1
actor adm admin
startfcconsistgrp 1
actor c copier 8
actor k cleaner 2
end
read B 0 1
";
