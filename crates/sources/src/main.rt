// Examples of the sources, each on a bulletin that has a segment, and what the core lists for it.
#![tactic(auto)]

use std::io;

fn main(rt: HostRuntime) -> io::Result<()> {
    let mut out = io::writer(&rt);
    // Document 002, 4.1: a zone forecast's communications identifier, its segment at line 3.
    printing::list(
        &mut out,
        b"FPUS51 KLWX 240822\nZFPLWX\nMDZ005-242100-\n$$\n",
        2002,
        4,
    )?;
    // Document 002, 4.2, example a.
    printing::list(
        &mut out,
        b"WFUS54 KJAN 232020\nTORJAN\n\nBULLETIN - EAS ACTIVATION REQUESTED\nTORNADO WARNING\nNATIONAL WEATHER SERVICE JACKSON MS\n320 PM CDT THU MAY 23 2002\n\nMSC049-232100-\n$$\n",
        2002,
        5,
    )?;
    // Example b.
    printing::list(
        &mut out,
        b"FPUS53 KLSX 162230 CCA\nZFPLSX\n\nZONE FORECASTS...CORRECTED\nNATIONAL WEATHER SERVICE ST LOUIS MO\n430 PM CST SAT MAR 16 2002\n\nMOZ063-170900-\n$$\n",
        2002,
        3,
    )?;
    // Example c.
    printing::list(
        &mut out,
        b"WWUS85 KSLC 191115 RRA\nSPSSLC\n\nSPECIAL WEATHER STATEMENT...RESENT\nNATIONAL WEATHER SERVICE SALT LAKE CITY UT\n515 AM MDT TUE NOV 19 2002\n\nUTZ003-192000-\n$$\n",
        2002,
        11,
    )?;
    // Example d: an agency outside the service, whose block has no office line.
    printing::list(
        &mut out,
        b"WOUS42 KRAH 282143\nSPWRAH\n\nSHELTER IN PLACE WARNING\nWAKE COUNTY EMERGENCY MANAGEMENT DIVISION RALEIGH NC\nRELAYED BY NATIONAL WEATHER SERVICE RALEIGH NC\n443 PM EST MON OCT 28 2002\n\nNCC183-290200-\n$$\n",
        2002,
        10,
    )?;
    // Document 003: the notice's own heading.
    printing::list(
        &mut out,
        b"NOUS41 KWBC 311227\nPNSWSH\n\nSERVICE CHANGE NOTICE 06-16\nNATIONAL WEATHER SERVICE HEADQUARTERS WASHINGTON DC\n728 AM EST FRI MAR 31 2006\n\nDCZ001-312100-\n$$\n",
        2006,
        3,
    )?;
    // Document 004: the head of a public advisory, with its storm.
    printing::list(
        &mut out,
        b"WTNT34 KNHC 060300\nTCPAT4\n\nTROPICAL STORM DENNIS PUBLIC ADVISORY NUMBER 5\nNWS TPC/NATIONAL HURRICANE CENTER MIAMI FL AL042005\n11PM EDT TUE JUL 5 2005\n\nFLC087-060900-\n$$\n",
        2005,
        7,
    )
}
