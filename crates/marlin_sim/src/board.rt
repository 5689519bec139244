//! A printer's board at a serial line: a pseudo-terminal in place of the device, and this program as the firmware.
//!
//! Only a call of the system that the kit lacks (`ioctl`) makes a pseudo-terminal. So Perl makes it, and passes the bytes on.
use octo_outside::WordList;
use std::alloc::Global;
use std::io;
use std::process::{Command, Processes, Stdio};

// The board. Its arguments are LINK or LINK:BOOT, and the arguments of the firmware after its address.
// The numbers are those of TIOCSPTLCK and TIOCGPTN on Linux.
const BOARD: &str = "
use strict; use Errno 'EAGAIN'; use Fcntl; use POSIX 'WNOHANG'; use Socket;
my ($link, @plan) = @ARGV;
my $boot = $link =~ s/:([0-9]+)$// ? $1 : 1000;
my $host = getppid;
my $firmware = readlink qq{/proc/$host/exe};
my $path = qq{$link.printer};

# The board's end of a line without echo.
sysopen my $board, '/dev/ptmx', O_RDWR | O_NOCTTY | O_NONBLOCK or die qq{/dev/ptmx: $!.$/};
my ($unlock, $number) = (pack('i', 0), pack('i', 0));
ioctl $board, 0x40045431, $unlock and ioctl $board, 0x80045430, $number or die qq{no device: $!.$/};
my $device = '/dev/pts/' . unpack 'i', $number;
sysopen my $line, $device, O_RDWR | O_NOCTTY or die qq{$device: $!.$/};
my $flags = POSIX::Termios->new;
$flags->getattr(fileno $line);
$flags->setiflag(0), $flags->setoflag(0), $flags->setlflag(0);
$flags->setattr(fileno $line, POSIX::TCSANOW());
close $line;
symlink $device, $link or die qq{$link: $!.$/};
END { unlink $link, $path if defined $device }
$SIG{$_} = sub { exit } for 'TERM', 'INT', 'HUP';
$SIG{PIPE} = 'IGNORE';

sub now_ms { 1000 / POSIX::sysconf(POSIX::_SC_CLK_TCK()) * (POSIX::times)[0] }
sub rest { select undef, undef, undef, 0.005; getppid == $host or exit }

# What the host wrote: empty if nothing came, undefined if no host has the device open.
sub read_line {
    my $count = sysread $board, my $data, 4096;
    defined $count ? $data : $! == EAGAIN ? '' : undef
}

# The firmware and the connection to it.
sub start_firmware {
    my $child = fork // die qq{fork: $!.$/};
    $child or exec($firmware, qq{unix:$path}, @plan) or POSIX::_exit(2);
    while () {
        socket my $conn, PF_UNIX, SOCK_STREAM, 0 or die qq{socket: $!.$/};
        return $child, $conn if connect $conn, sockaddr_un($path);
        waitpid $child, WNOHANG and exit 2;
        rest();
    }
}

# Drops input while the board starts. False if the host closes the device meanwhile.
sub boot {
    my $end = now_ms() + $boot;
    while (now_ms() < $end) { defined read_line() or return; rest() }
    1
}

sub write_all {
    my ($to, $data) = @_;
    while (length $data) {
        my $count = syswrite $to, $data;
        if (defined $count) { substr($data, 0, $count) = '' }
        elsif ($! == EAGAIN) { rest() }
        else { return }
    }
    1
}

# Passes bytes on until the host closes the device, or the firmware ends.
sub pass_on {
    my ($conn) = @_;
    while (getppid == $host) {
        my $ready = '';
        vec($ready, fileno $_, 1) = 1 for $board, $conn;
        select $ready, undef, undef, 0.05;
        my $data = read_line();
        defined $data or return;
        write_all($conn, $data) or return;
        if (vec $ready, fileno $conn, 1) {
            sysread $conn, $data, 4096 or return;
            write_all($board, $data) or return;
        }
    }
}

while () {
    rest() until defined read_line();
    boot() or next;
    my ($child, $conn) = start_firmware;
    pass_on $conn;
    close $conn;
    waitpid $child, 0;
}
";

/// What follows `pty:` in a board's address, `LINK` or `LINK:BOOT`; `None` in any other address.
pub fn device_link(address: &str) -> Option<&str> {
    address.strip_prefix("pty:")
}

/// Makes a board at `LINK`, with the arguments after the address for its firmware, and waits for its end: Perl's exit, if no signal
/// ends it. Returns whether it ended as it should. Each time a host opens `LINK` the board drops what comes for `BOOT` milliseconds, by
/// default 1,000, and starts this program as a printer anew. Fails if Perl can't be started, or memory runs out.
pub fn run_board<R: Processes>(
    rt: &R,
    alloc: Global,
    link: &str,
    words: &WordList,
) -> io::Result<bool> {
    let mut perl = Command::new(alloc, "perl")?;
    perl.args(["-e", BOARD, "--", link])?;
    for place in 1..words.count() {
        perl.arg(words.get(place))?;
    }
    Ok(perl.stdin(Stdio::null()).status(rt)?.success())
}
