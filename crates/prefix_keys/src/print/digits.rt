//! Printing numbers from their last digit backwards.
ghost use Rattle.std.specs.Prelude.{◌≡◌, ◌+◌, ◌*◌, ◌<◌, ◌≤◌, ◌++◌, drop, false, length};
ghost use Rattle.std.specs.Fmt.{decimal, digits};
ghost use Rattle.prefix_keys.specs.Print.{address_groups_text};

// The decimal numbers from 000 to 255, each after a point.
static OCTETS: [u8; 1024] = *b"\
    .000.001.002.003.004.005.006.007.008.009.010.011.012.013.014.015.016.017.018.019.020.021.022.023.024\
    .025.026.027.028.029.030.031.032.033.034.035.036.037.038.039.040.041.042.043.044.045.046.047.048.049\
    .050.051.052.053.054.055.056.057.058.059.060.061.062.063.064.065.066.067.068.069.070.071.072.073.074\
    .075.076.077.078.079.080.081.082.083.084.085.086.087.088.089.090.091.092.093.094.095.096.097.098.099\
    .100.101.102.103.104.105.106.107.108.109.110.111.112.113.114.115.116.117.118.119.120.121.122.123.124\
    .125.126.127.128.129.130.131.132.133.134.135.136.137.138.139.140.141.142.143.144.145.146.147.148.149\
    .150.151.152.153.154.155.156.157.158.159.160.161.162.163.164.165.166.167.168.169.170.171.172.173.174\
    .175.176.177.178.179.180.181.182.183.184.185.186.187.188.189.190.191.192.193.194.195.196.197.198.199\
    .200.201.202.203.204.205.206.207.208.209.210.211.212.213.214.215.216.217.218.219.220.221.222.223.224\
    .225.226.227.228.229.230.231.232.233.234.235.236.237.238.239.240.241.242.243.244.245.246.247.248.249\
    .250.251.252.253.254.255";

// The hexadecimal numbers from 00 to ff.
static PAIRS: [u8; 512] = *b"\
    000102030405060708090a0b0c0d0e0f101112131415161718191a1b1c1d1e1f202122232425262728292a2b2c2d2e2f30313233\
    3435363738393a3b3c3d3e3f404142434445464748494a4b4c4d4e4f505152535455565758595a5b5c5d5e5f6061626364656667\
    68696a6b6c6d6e6f707172737475767778797a7b7c7d7e7f808182838485868788898a8b8c8d8e8f909192939495969798999a9b\
    9c9d9e9fa0a1a2a3a4a5a6a7a8a9aaabacadaeafb0b1b2b3b4b5b6b7b8b9babbbcbdbebfc0c1c2c3c4c5c6c7c8c9cacbcccdcecf\
    d0d1d2d3d4d5d6d7d8d9dadbdcdddedfe0e1e2e3e4e5e6e7e8e9eaebecedeeeff0f1f2f3f4f5f6f7f8f9fafbfcfdfeff";

/// Writes a number below 256 in decimal so that it ends at offset `end`, and returns the offset of its start. All four
/// bytes before `end` are written, so bytes before the start may be overwritten. This is faster than to write each
/// digit.
#[inline(always)]
pub fn write_octet(octet: u16, buf: &mut [u8], end: usize) -> usize
    requires small { octet < 256 }
    requires room { 4 ≤ end }
    requires within { end ≤ length buf.old }
    ensures start { result ≤ end }
    ensures room { end ≤ result + 3 }
    ensures written { drop result buf.new ≡ decimal octet ++ drop end buf.old }
{
    let at = octet as usize * 4;
    buf[end - 1] = OCTETS[at + 3];
    buf[end - 2] = OCTETS[at + 2];
    buf[end - 3] = OCTETS[at + 1];
    buf[end - 4] = OCTETS[at];
    if octet < 10 {
        end - 1
    } else if octet < 100 {
        end - 2
    } else {
        end - 3
    }
}

/// Writes a group of an IPv6 address in lower-case hexadecimal so that it ends at offset `end`, and returns the offset
/// of its start. All four bytes before `end` are written, so bytes before the start may be overwritten.
#[inline(always)]
fn write_group(group: u16, buf: &mut [u8], end: usize) -> usize
    requires room { 4 ≤ end }
    requires within { end ≤ length buf.old }
    ensures start { result ≤ end }
    ensures room { end ≤ result + 4 }
    ensures written { drop result buf.new ≡ digits 16 false group ++ drop end buf.old }
{
    let low = (group % 256) as usize * 2;
    let high = (group / 256) as usize * 2;
    buf[end - 1] = PAIRS[low + 1];
    buf[end - 2] = PAIRS[low];
    buf[end - 3] = PAIRS[high + 1];
    buf[end - 4] = PAIRS[high];
    if group < 16 {
        end - 1
    } else if group < 256 {
        end - 2
    } else if group < 4096 {
        end - 3
    } else {
        end - 4
    }
}

/// Writes groups separated by `:` so that they end at offset `end`, and returns the offset of their start.
pub fn write_groups(groups: &[u16], buf: &mut [u8], end: usize) -> usize
    requires room { 5 * length groups.now ≤ end }
    requires within { end ≤ length buf.old }
    ensures start { result ≤ end }
    ensures room { end ≤ result + 5 * length groups.now }
    ensures written { drop result buf.new ≡ address_groups_text groups.now ++ drop end buf.old }
{
    let mut at = end;
    for i in (0..groups.len()).rev() {
        if i + 1 < groups.len() {
            at -= 1;
            buf[at] = b':';
        }
        at = write_group(groups[i], buf, at);
    }
    at
}
